// Well-formedness, refusals 1 to 5: defined in specs/; in proofs/ what a well-formed sheet has, and laws for the passes that ask it.
#![tactic(auto)]

ghost use Rattle.std.specs.Prelude.{◌≡◌};
ghost use Rattle.model.specs.Refusal.{Accepted, verdict};
ghost use Rattle.form.specs.WellFormed.{form_tests};

use index::sheets::Sheet;

// A well-formed sheet, which the machines run.
#[derive(Clone, Copy)]
pub struct FormedSheet<'a> {
    pub sheet: Sheet<'a>,
    ghost formed: { verdict (form_tests sheet.bytes.now) ≡ Accepted },
}
