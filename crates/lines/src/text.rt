// Words and numbers put into a buffer one after the other.
// kept: `write!` promises its bytes only where it doesn't fail, and nothing says when that is; `feed` promises them always.
ghost use Rattle.std.specs.Prelude.{◌≡◌, ◌+◌, ◌≤◌, length};
ghost use Rattle.lines.specs.Text.{decimal_of, ◌then◌};

use writes::put_bytes;

// Puts a text at a place, and answers the place behind it.
pub fn put_text(out: &mut [u8], at: usize, text: &[u8]) -> usize
    requires { at + length text.now ≤ length out.old }
    ensures out_after { (result, out.new) ≡ (at, out.old) then text.now }
    ensures value { result ≡ at + length text.now }
{
    put_bytes(out, at, text);
    at + text.len()
}

// Puts a text and behind it a number in decimal, which takes at most 20 digits, and answers the place behind both.
pub fn put_count(out: &mut [u8], at: usize, text: &[u8], n: u64) -> usize
    requires { at + length text.now + 20 ≤ length out.old }
    ensures out_after { (result, out.new) ≡ (at, out.old) then text.now then decimal_of n }
    ensures upper_bound { result ≤ at + length text.now + 20 }
{
    let at = put_text(out, at, text);
    let mut digits = [0u8; 20];
    let size = io::decimal(n, &mut digits);
    put_text(out, at, &digits[..size])
}
