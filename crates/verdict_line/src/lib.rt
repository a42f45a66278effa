// A verdict as the checking program writes it: one line, made whole before it is written.
#![tactic(auto)]

ghost use Rattle.std.specs.Prelude.{◌+◌, ◌≤◌, ◌≡◌, ◌++◌, length, take};
ghost use Rattle.io.specs.Counts.{IsPrefixLen};
ghost use Rattle.verdict_line.specs.Line.{decimal, refused_line, line};

use model::Verdict;

// No line is longer: twenty digits hold every number. The line is put in a lent buffer, for there is no heap.
pub const LINE_BYTES: usize = 64;

// Puts some bytes after the first `at` of the line, and gives how many it has then.
fn append(out: &mut [u8], at: usize, part: &[u8]) -> usize
    requires { at + length part.now ≤ length out.old }
    ensures value { result ≡ at + length part.now }
    ensures out_after { take result out.new ≡ take at out.old ++ part.now }
{
    let end = at + part.len();
    out[at..end].copy_from_slice(part);
    end
}

// Puts a number after the first `at` bytes of the line, in decimal, and gives how many it has then.
#[tactic(auto, using(crate::proofs::Digits::few, crate::proofs::Digits::digits_decimal))]
fn append_decimal(out: &mut [u8], at: usize, n: u64) -> usize
    requires { at + 20 ≤ length out.old }
    ensures upper_bound { result ≤ at + 20 }
    ensures out_after { take result out.new ≡ take at out.old ++ decimal n }
{
    let mut digits = [0u8; 20];
    let k = io::decimal(n, &mut digits);
    append(out, at, &digits[..k])
}

// Puts the line of a verdict at the start of what is lent, and gives how many bytes it has.
// It is no `Display`, which would have to fit: no clause of `write!` says that it gives no error where there is room.
#[tactic(auto, unfolding(crate::specs::Line::ascii, crate::specs::Line::line))]
pub fn put_line(v: Verdict, out: &mut [u8; LINE_BYTES]) -> usize
    ensures prefix_len { IsPrefixLen result out.new }
    ensures out_after { take result out.new ≡ line v }
{
    match v {
        Ok(()) => append(out, 0, b"accepted 0 0\n"),
        Err(r) => put_refusal(r.reason.number(), r.place, out),
    }
}

// The same of a refusal by any number, whether a reason has it or not.
#[tactic(auto, unfolding(crate::specs::Line::ascii, crate::specs::Line::refused_line))]
pub fn put_refusal(number: u8, place: usize, out: &mut [u8; LINE_BYTES]) -> usize
    ensures prefix_len { IsPrefixLen result out.new }
    ensures out_after { take result out.new ≡ refused_line number place }
{
    let word = append(out, 0, b"refused ");
    let numbered = append_decimal(out, word, u64::from(number));
    let parted = append(out, numbered, b" ");
    let placed = append_decimal(out, parted, place as u64);
    append(out, placed, b"\n")
}
