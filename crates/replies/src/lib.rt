// A reply as C reads it: words in a buffer that is lent.
#![tactic(auto)]

ghost use Rattle.std.specs.Prelude.{◌≡◌};
ghost use Rattle.replies.specs.Words.{reply_words};

use run::Reply;
use words::write;

// Place, steps, words put, procedure, instruction, as far as the reply has words.
pub fn put_reply(words: &mut [u64], r: Reply)
    ensures { words.new ≡ reply_words words.old r }
{
    write(words, 0, r.place);
    write(words, 1, r.steps);
    write(words, 2, r.put);
    write(words, 3, r.procedure);
    write(words, 4, r.instruction);
}
