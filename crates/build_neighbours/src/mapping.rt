// What a function makes of each word of a list, written into a room.
ghost use Rattle.std.specs.Prelude.{◌≡◌, ◌≤◌, length, drop, slice_index, EachIndex};

// Writes what f makes of each word over the front of out.
pub fn map_into<F: Fn(u32) -> u32>(words: &[u32], out: &mut [u32], f: F)
    requires fits { length words.now ≤ length out.old }
    requires callable { EachIndex words.now (λ k. F.pre f (slice_index words.now k)) }
    ensures made { EachIndex words.now (λ k. F.post f (slice_index words.now k) (slice_index out.new k)) }
    ensures kept { drop (length words.now) out.new ≡ drop (length words.now) out.old }
{
    for (i, &w) in words.iter().enumerate() {
        out[i] = f(w);
    }
}
