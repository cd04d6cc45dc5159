// Replies to lines of text.
ghost use Rattle.std.specs.Prelude.{◌≡◌, ◌+◌, ◌≤◌, length, [], ◌∷◌, ◌++◌};
ghost use Rattle.standard.specs.Journal.{decimal, spaced, answered, reply_text, answer_text, line};
ghost use Rattle.journals.specs.Say.{said_answer, said_reply};
ghost use Rattle.journals.specs.Texts.{Puts, reply_length, head_length, line_length, ending_text};

use crate::replies::{ACCEPTED, Answer, Reply};
use crate::texts::Text;

// No line is longer: six numbers of 20 digits at most, six spaces, a word of two letters and the newline.
pub const LINE_LENGTH: usize = 129;

pub type Line = Text<LINE_LENGTH>;

// The specification's endings; in a fault the input could not be read on from this offset.
#[derive(Clone, Copy, PartialEq, Eq)]
pub enum Ending {
    Complete,
    Torn(u64),
    BadMark(u64),
    Fault(u64),
}

// The line of a record. Not by `write!`, which promises a text only where no write fails.
pub fn put_line(number: u64, offset: u64, reply: Reply) -> Line
    ensures { Puts line_length [] (line number offset (said_reply reply)) result }
{
    let mut line = Line::new();
    write_line(&mut line, number, offset, reply);
    line
}

// The same, where the line is to stay: one that is handed back is copied on its way.
pub(crate) fn write_line(out: &mut Line, number: u64, offset: u64, reply: Reply)
    requires { out.old ≡ [] }
    ensures { Puts line_length [] (line number offset (said_reply reply)) out.new }
{
    put_head(out, number, offset);
    put_reply(out, reply);
    out.push(b"\n");
}

// The line of an answer whose numbers may come from no decoding.
pub fn put_answer_line(number: u64, offset: u64, answer: Answer) -> Line
    ensures { Puts line_length [] (line number offset (answered (said_answer answer))) result }
{
    let mut line = Line::new();
    put_head(&mut line, number, offset);
    put_answer(&mut line, answer);
    line.push(b"\n");
    line
}

// The last line.
pub fn put_last(records: u64, ending: Ending) -> Line
    ensures { Puts line_length [] (ending_text records ending) result }
{
    match ending {
        Ending::Complete => put_count(b"end", records),
        Ending::Torn(offset) => put_count(b"torn", offset),
        Ending::BadMark(offset) => put_count(b"mark", offset),
        Ending::Fault(offset) => put_count(b"fault", offset),
    }
}

// Each line of a record begins with its number and its offset.
fn put_head(line: &mut Line, number: u64, offset: u64)
    requires { line.old ≡ [] }
    ensures { Puts head_length [] (decimal number ++ spaced (offset ∷ [])) line.new }
{
    line.push_decimal(number);
    line.push_numbers(&[offset]);
}

fn put_reply(line: &mut Line, reply: Reply)
    requires { length line.old + reply_length ≤ line_length }
    ensures { Puts reply_length line.old (32 ∷ reply_text (said_reply reply)) line.new }
{
    match reply {
        Reply::Answered(decoded) => put_answer(line, Answer::from(decoded)),
        Reply::Noted => line.push(b" gap"),
        Reply::Cleared => line.push(b" reset"),
        Reply::Started => line.push(b" start"),
    }
}

fn put_answer(line: &mut Line, answer: Answer)
    requires { length line.old + reply_length ≤ line_length }
    ensures { Puts reply_length line.old (32 ∷ answer_text (said_answer answer)) line.new }
{
    if answer.number == ACCEPTED {
        line.push(b" ok");
        line.push_numbers(&[answer.objects, answer.blocks, answer.unsettled]);
    } else {
        line.push(b" no");
        line.push_numbers(&[answer.number, answer.context, answer.place, answer.missing]);
    }
}

// A word and a number are a line.
fn put_count(word: &[u8], number: u64) -> Line
    requires { length word.now ≤ 5 }
    ensures { Puts line_length [] (word.now ++ spaced (number ∷ []) ++ 10 ∷ []) result }
{
    let mut line = Line::new();
    line.push(word);
    line.push_numbers(&[number]);
    line.push(b"\n");
    line
}
