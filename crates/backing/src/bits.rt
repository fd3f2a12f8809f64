// Bits in a row of bytes, worked on a byte at a time.
ghost use Rattle.std.specs.Prelude.{◌≡◌, ℕ, ◌+◌, ◌-◌, ◌*◌, ◌<◌, ◌≤◌, true, false, length, drop, slice_index};
ghost use Rattle.backing.specs.Bits.{bit_at, bytes_for, IsPart, ChangesByte};
ghost use Rattle.backing.specs.Meaning.{tally, turn};

use crate::stretches::Span;

#[tactic(auto, using(crate::proofs::Bytes::bit_read))]
pub(crate) fn is_set(bytes: &[u8], bit: u32) -> bool
    requires { bit < 8 * length bytes.now }
    ensures { result ≡ bit_at bytes.now bit }
{
    (bytes[(bit / 8) as usize] >> (bit % 8)) & 1 == 1
}

// The bits of byte `k` that lie in a span.
fn part(span: Span, k: u32) -> u8
    requires from { span.first < 8 * k + 8 }
    requires to { 8 * k < span.end }
    ensures { IsPart span.first span.end k result }
{
    let low = span.first.saturating_sub(8 * k);
    let high = (span.end - 8 * k).min(8);
    ((1u16 << high) - (1u16 << low)) as u8
}

// Sets each bit of a span.
pub(crate) fn set(bytes: &mut [u8], span: Span)
    requires { span.end ≤ 8 * length bytes.old }
    ensures bits { (g : ℕ) → bit_at bytes.new g ≡ turn (bit_at bytes.old) span.first span.end true g }
    ensures rest { (k : ℕ) → bytes_for span.end ≤ k → drop k bytes.new ≡ drop k bytes.old }
{
    change(bytes, span, |byte, bits| byte | bits);
}

// Clears each bit of a span.
pub(crate) fn clear(bytes: &mut [u8], span: Span)
    requires { span.end ≤ 8 * length bytes.old }
    ensures bits { (g : ℕ) → bit_at bytes.new g ≡ turn (bit_at bytes.old) span.first span.end false g }
    ensures rest { (k : ℕ) → bytes_for span.end ≤ k → drop k bytes.new ≡ drop k bytes.old }
{
    change(bytes, span, |byte, bits| byte & !bits);
}

// Changes each byte that a span touches, by its bits in the span.
fn change<F: Fn(u8, u8) -> u8>(bytes: &mut [u8], span: Span, f: F)
    requires within { span.end ≤ 8 * length bytes.old }
    requires callable { F.IsAlwaysCallable f }
    ensures bytes { (k : ℕ) → k < length bytes.old → ChangesByte (F.post f) span.first span.end k (slice_index bytes.old k) (slice_index bytes.new k) }
    ensures rest { (k : ℕ) → bytes_for span.end ≤ k → drop k bytes.new ≡ drop k bytes.old }
{
    let start = (span.first / 8) as usize;
    let end = span.end.div_ceil(8) as usize;
    for k in start..end {
        bytes[k] = f(bytes[k], part(span, k as u32));
    }
}

// How many bits of a span are set.
pub(crate) fn count_set(bytes: &[u8], span: Span) -> u32
    requires { span.end ≤ 8 * length bytes.now }
    ensures { result ≡ tally (bit_at bytes.now) span.first (span.end - span.first) }
{
    let start = (span.first / 8) as usize;
    let end = span.end.div_ceil(8) as usize;
    let mut n = 0;
    for (k, byte) in bytes[start..end].iter().enumerate() {
        n += (byte & part(span, (start + k) as u32)).count_ones();
    }
    n
}
