// What the caller's host, written in C, calls: numbers and slices only.
#![tactic(auto)]

ghost use Rattle.std.specs.Prelude.{◌≡◌, set};
ghost use Rattle.std.proofs.Math.Option.{some};
ghost use Rattle.model.specs.Modes.{plain};
ghost use Rattle.model.specs.Refusal.{verdict_number, verdict_place};
ghost use Rattle.checking.specs.Check.{check};
ghost use Rattle.run.specs.Run.{answer};
ghost use Rattle.replies.specs.Words.{returned, to_c};

use replies::put_reply;
use words::write;

// The number of the refusal, 0 where the sheet is accepted; its place goes to the first word of the reply, where there is one.
#[unsafe(no_mangle)]
pub extern "C" fn wn_check(sheet: &[u8], reply: &mut [u64]) -> u64
    ensures value { result ≡ verdict_number (check sheet.now) }
    ensures reply_after { reply.new ≡ set reply.old 0 (verdict_place (check sheet.now)) }
{
    match checking::check(sheet) {
        Ok(()) => {
            write(reply, 0, 0);
            0
        }
        Err(refusal) => {
            write(reply, 0, refusal.place as u64);
            u64::from(refusal.reason.number())
        }
    }
}

// Runs a sheet on the plain machine: the number; the reply has the rest.
#[unsafe(no_mangle)]
pub extern "C" fn wn_run(
    sheet: &[u8],
    reads: &[u32],
    fuel: u64,
    bench: &mut [u64],
    report: &mut [u32],
    reply: &mut [u64],
) -> u64
    ensures { to_c reply.old (answer plain sheet.now reads.now fuel bench.old report.old) ≡ some (returned result reply.new bench.new report.new) }
{
    let r = run::run(sheet, reads, fuel, bench, report);
    put_reply(reply, r);
    r.number
}
