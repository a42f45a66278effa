// The checker: from any bytes to a verdict.
#![tactic(auto)]

ghost use Rattle.std.specs.Prelude.{◌≡◌};
ghost use Rattle.form.specs.Yields.{Yields};
ghost use Rattle.checking.specs.Check as def;

use access::passes::access;
use form::FormedSheet;
use index::make::indexed;
use index::sheets::AnySheet;
use model::{Refusal, Verdict};
use well_formed::well_formed;

// The verdict, for who has made the index already; an accepted sheet comes back as a well-formed one.
#[tactic(auto, using(crate::proofs::Laws::form_refuses, crate::proofs::Laws::access_says))]
pub fn check_indexed(s: AnySheet) -> Result<FormedSheet, Refusal>
    ensures { Yields (def.check s.entry.bytes.now) s.entry result }
{
    let formed = well_formed(s)?;
    access(formed.sheet)?;
    Ok(formed)
}

// Accepts a sheet, or refuses it with a reason and a place.
pub fn check(s: &[u8]) -> Verdict
    ensures { result ≡ def.check s.now }
{
    let index = indexed(s);
    check_indexed(AnySheet::new(s, &index))?;
    Ok(())
}
