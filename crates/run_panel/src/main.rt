// Lists the matches of pattern.bin in store.bin: a line with the answer, then a line of node ids for each match.
#![tactic(auto)]

mod show;

// A store that is not kept whole is lent as none, which is 1; a pattern so is 6, in its usual place.
fn main(rt: HostRuntime) {
    let mut store = [0u8; 32768];
    let mut pattern = [0u8; 264];
    let mut out = [0u8; 24576];
    let s = run_files::read_file(&rt, b"store.bin", &mut store).unwrap_or(0);
    let b = run_files::read_file(&rt, b"pattern.bin", &mut pattern).unwrap_or(0);
    let n = show::show(&store[..s], &pattern[..b], &mut out);
    // A write that fails is left at that.
    let _ = rt.write_all(&out[..n]);
}
