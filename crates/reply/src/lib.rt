// What every call replies: a number, 0 or what refuses it, and sixteen words.

#![tactic(auto)]

ghost use Rattle.std.specs.Prelude.{◌≡◌};
ghost use Rattle.reply.specs.Reply.{refused_reply, done_reply, reply_of};

// No Result: a caller across C gets the number and the words, as they stand here.
#[derive(Clone, Copy)]
pub struct Reply {
    pub number: u32,
    pub words: [u32; 16],
}

#[tactic(auto, unfolding(crate::specs::Reply::refused_reply))]
pub fn refused(n: u32) -> Reply
    ensures { result ≡ refused_reply n }
{
    Reply {
        number: n,
        words: [0; 16],
    }
}

// An answer of at most eight words.
#[tactic(auto, unfolding(crate::specs::Reply::done_reply))]
pub fn done(a: u32, b: u32, c: u32, d: u32, e: u32, f: u32, g: u32, h: u32) -> Reply
    ensures { result ≡ done_reply a b c d e f g h }
{
    Reply {
        number: 0,
        words: [a, b, c, d, e, f, g, h, 0, 0, 0, 0, 0, 0, 0, 0],
    }
}

// The answer, where no number refuses it.
#[tactic(auto, unfolding(crate::specs::Reply::reply_of))]
pub fn reply_of(n: u32, answer: Reply) -> Reply
    ensures { result ≡ reply_of n answer }
{
    if n == 0 { answer } else { refused(n) }
}
