// The desk as a program: standard input to standard output. What is made of the bytes is decided by `dialogue`; here they are
// read, handed over and written, and what is answered is written before more is read. A read or a write that fails is told on
// standard error, and nothing more is answered.

#![tactic(auto)]

ghost use Rattle.std.specs.Prelude.{◌<◌, length, OnOk, IfOk};
ghost use Rattle.std.specs.Io.KnownBytes.{Appends};
ghost use Rattle.dialogue.specs.Rounds.{Room, Exchanged};
ghost use Rattle.program.specs.Moves.{AfterNoBytes, AfterReplies, Moved};
ghost use Rattle.program.specs.Whole.{AllButFarewell, AllWritten};

use dialogue::{Dialogue, Stage};
use std::io::{ErrorKind, Read, Write};
use std::process::ExitCode;
use std::{fmt, io};

// What failed, with why.
#[derive(Drop)]
enum Failure {
    Read(io::Error),
    Write(io::Error),
}

impl fmt::Display for Failure {
    fn fmt<W: fmt::Write>(&self, f: &mut fmt::Formatter<W>) -> fmt::Result {
        match self {
            Failure::Read(why) => write!(f, "cannot read standard input: {why}"),
            Failure::Write(why) => write!(f, "cannot write standard output: {why}"),
        }
    }
}

// What comes after a round.
#[derive(Clone, Copy)]
enum Next {
    Round,
    End,
}

// What stands between two rounds: the dialogue, a buffer that begins with `have` bytes which were not used yet, and the bytes of the replies.
#[derive(Drop)]
struct Conversation {
    dialogue: Dialogue,
    buffer: [u8; 12288],
    have: usize,
    replies: [u8; 16384],
}

// Writes all bytes, so that none waits in the writer, or says why it cannot. A write that a signal interrupts is tried again.
fn write_out<W: Write>(output: &mut W, bytes: &[u8]) -> Result<(), Failure>
    ensures { OnOk result (Appends (W.contents output.old) (W.contents output.new) bytes.now) }
{
    output.write_all(bytes).map_err(Failure::Write)?;
    output.flush().map_err(Failure::Write)
}

// After a read that brought nothing: the input ended, a signal came first, or it failed.
fn after_no_bytes(got: io::Result<usize>) -> Result<Next, Failure>
    ensures { AfterNoBytes got result }
{
    match got {
        Ok(_) => Ok(Next::End),
        Err(why) if why.kind() == ErrorKind::Interrupted => Ok(Next::Round),
        Err(why) => Err(Failure::Read(why)),
    }
}

// Replies that were not written are a failure, and a refused opening is the end.
fn after_replies(put: Result<(), Failure>, stage: Stage) -> Result<Next, Failure>
    ensures { AfterReplies put stage result }
{
    put?;
    match stage {
        Stage::Refused(_) => Ok(Next::End),
        _ => Ok(Next::Round),
    }
}

impl Conversation {
    // One read, and the replies to what it brought, which is heard behind the bytes that were kept. There is room for the replies, and
    // the buffer is never full. Where a read or a write failed, `round` still holds, and nothing is said of what was written.
    fn exchange<R: Read, W: Write>(
        &mut self,
        input: &mut R,
        output: &mut W,
    ) -> Result<Next, Failure>
        requires { (self.old.have < length self.old.buffer) × Room self.old.buffer self.old.replies }
        ensures round { (self.new.have < length self.new.buffer) × Room self.new.buffer self.new.replies
            × Exchanged self.old.dialogue self.old.buffer self.old.have self.old.replies
            self.new.dialogue self.new.have self.new.buffer self.new.replies }
        ensures moved { IfOk result (Moved (R.remaining input.old) (R.remaining input.new) (W.contents output.old) (W.contents output.new)
            self.old.dialogue self.old.buffer self.old.have self.old.replies
            self.new.dialogue self.new.have self.new.buffer self.new.replies) }
    {
        let got = match input.read(&mut self.buffer[self.have..]) {
            Ok(got) if got != 0 => got,
            nothing => return after_no_bytes(nothing),
        };
        let heard = dialogue::hear(
            self.dialogue,
            &mut self.buffer,
            self.have,
            got,
            &mut self.replies,
        );
        self.dialogue = heard.dialogue;
        self.have = heard.have;
        let put = write_out(output, &self.replies[..heard.written]);
        after_replies(put, heard.dialogue.stage)
    }
}

// Round after round, until the input ends or its opening is refused; the last dialogue. A proved loop has to end, and nothing says that an
// input does: so it counts up to a number that no run reaches, and there would say that it cannot read on. Where the bytes are known, all
// that was to be written of them is written but the farewell.
fn converse<R: Read, W: Write>(input: &mut R, output: &mut W) -> Result<Dialogue, Failure>
    ensures { IfOk result (AllButFarewell (R.remaining input.old) (W.contents output.old) (W.contents output.new)) }
{
    let mut conversation = Conversation {
        dialogue: dialogue::start(),
        buffer: [0; 12288],
        have: 0,
        replies: [0; 16384],
    };
    for _ in 0..u64::MAX {
        if let Next::End = conversation.exchange(input, output)? {
            return Ok(conversation.dialogue);
        }
    }
    Err(Failure::Read(io::Error::from(ErrorKind::TimedOut)))
}

// The whole dialogue, and what is written at its end. Where the bytes are known, what is written of them is what should be.
fn serve<R: Read, W: Write>(input: &mut R, output: &mut W) -> Result<(), Failure>
    ensures { OnOk result (AllWritten (R.remaining input.old) (W.contents output.old) (W.contents output.new)) }
{
    let last = converse(input, output)?;
    if let Stage::Refused(number) = dialogue::finish(last.stage) {
        write_out(output, &dialogue::refuse(number))?;
    }
    Ok(())
}

// The reason alone, without the number that the system has for it.
fn reason(text: &str) -> &str {
    text.split_once(" (os error ")
        .map_or(text, |(words, _)| words)
}

// Tells standard error what failed, and why. Where that fails too, there is nobody left to be told.
fn tell(rt: &HostRuntime, failure: Failure) {
    let _ = match failure.to_string(rt.alloc()) {
        Ok(text) => eprintln!(rt; "desk: {}", reason(&text)),
        Err(_) => eprintln!(rt; "desk: {failure}"),
    };
}

fn main(rt: HostRuntime) -> ExitCode {
    let (mut input, mut output) = (rt.stdin(), rt.stdout());
    if let Err(failure) = serve(&mut input, &mut output) {
        tell(&rt, failure);
        return ExitCode::FAILURE;
    }
    ExitCode::SUCCESS
}
