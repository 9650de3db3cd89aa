// Copying bytes to the front of a buffer: as many as both have. Every function is proved, nothing is assumed, and no public function has a
// `requires`.
#![tactic(auto)]

ghost use Rattle.std.specs.Prelude.{◌≡◌, ◌≤◌, ◌<◌, ◌++◌, length, take, drop};

// Copies the bytes of one buffer to the front of another, as many as fit, and answers how many these are. What stands behind them stays.
pub fn copy(src: &[u8], dst: &mut [u8]) -> usize
    ensures whole { length src.now ≤ length dst.old → (result ≡ length src.now) × (dst.new ≡ take (length src.now) src.now ++ drop (length src.now) dst.old) }
    ensures cut { length dst.old < length src.now → (result ≡ length dst.old) × (dst.new ≡ take (length dst.old) src.now) }
{
    if dst.len() < src.len() {
        let n = dst.len();
        dst.copy_from_slice(&src[..n]);
        return n;
    }
    let n = src.len();
    dst[..n].copy_from_slice(src);
    n
}
