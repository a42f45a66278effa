// The watched machine for a host written in C, in a library of its own.
#![tactic(auto)]

ghost use Rattle.std.specs.Prelude.{◌≡◌};
ghost use Rattle.std.proofs.Math.Option.{some};
ghost use Rattle.model.specs.Modes.{watched};
ghost use Rattle.run.specs.Run.{answer};
ghost use Rattle.replies.specs.Words.{returned, to_c};

use replies::put_reply;

// Runs a sheet on the watched machine: the number; the reply has the rest.
#[unsafe(no_mangle)]
pub extern "C" fn wn_watch(
    sheet: &[u8],
    reads: &[u32],
    fuel: u64,
    bench: &mut [u64],
    report: &mut [u32],
    reply: &mut [u64],
) -> u64
    ensures { to_c reply.old (answer watched sheet.now reads.now fuel bench.old report.old) ≡ some (returned result reply.new bench.new report.new) }
{
    let r = run::watch(sheet, reads, fuel, bench, report);
    put_reply(reply, r);
    r.number
}
