// The calls of a script.
use crate::fault::Fault;
use book::read::read_line;
use book::tables::Book;
use judge::Judge;
use reader::invocation_parser::InvocationParser;
use register::register::Register;
use report::{ReadingText, RolesText};
use script::answer;
use script::call::{Call, Verb, part, typed_line};
use script::hex::unhex;
use script::reading_call::ReadingCall;
use script::tally::Tally;
use std::alloc::{AllocError, Global};
use text::line::Line;

const HELP: &str =
    "words W W W            cut a line of these words, with single spaces between them
wordsx HEX             cut a line of these bytes
read W W W             read a line of these words
readx HEX              read a line of these bytes
roles W W W            read a line of these words, and tell the role of each
find MODULE KIND NAME  where a name of this kind in this module leads
recipe NUMBER          the parameters of a recipe
judge PATTERN TEXT     whether a text belongs to a pattern
help                   list the calls";

// What a run has at hand: the tree, the judge, the parser, the book that a line is read into, and what has been done.
#[derive(Drop)]
pub struct Desk<'a, R, J> {
    pub heap: Global,
    pub register: &'a R,
    pub judge: &'a J,
    parser: InvocationParser,
    book: Book,
    pub tally: Tally,
}

impl<'a, R: Register, J: Judge> Desk<'a, R, J> {
    pub fn new(heap: Global, register: &'a R, judge: &'a J) -> Desk<'a, R, J> {
        Desk {
            heap,
            register,
            judge,
            parser: InvocationParser::new(),
            book: Book::new(),
            tally: Tally::new(),
        }
    }

    // The words of a line of bytes.
    fn cut(&mut self, bytes: &[u8]) -> Result<String, Fault> {
        let line = Line::cut(bytes)?;
        self.tally.take(line.words().len());
        Ok(answer::words(self.heap, &line)?)
    }

    // Reads a line of bytes into the book.
    fn read(&mut self, bytes: &[u8]) -> Result<(), Fault> {
        read_line(
            self.register,
            self.judge,
            bytes,
            &mut self.parser,
            &mut self.book,
        )?;
        self.tally.take(self.book.roles().len());
        Ok(())
    }

    // The answer to a call that reads a line.
    fn reading(&mut self, asked: ReadingCall, rest: Option<&[u8]>) -> Result<String, Fault> {
        let bytes = match asked {
            ReadingCall::ReadHex => unhex(self.heap, rest.unwrap_or(b""))?,
            ReadingCall::Read | ReadingCall::Roles => typed_line(self.heap, rest)?,
        };
        self.read(bytes.as_slice())?;
        let book = &self.book;
        let answer = match asked {
            ReadingCall::Roles => format!(in self.heap; "{}", RolesText { book })?,
            ReadingCall::Read | ReadingCall::ReadHex => format!(in self.heap;
                "{}",
                ReadingText { book }
            )?,
        };
        Ok(answer)
    }

    // The answer to a script line, if it has one of its own.
    fn call(&mut self, line: &[u8]) -> Result<String, Fault> {
        let Call { name, rest } = part(line);
        let text = rest.unwrap_or(b"");
        match Verb::named(name) {
            Some(Verb::Words) => self.cut(typed_line(self.heap, rest)?.as_slice()),
            Some(Verb::WordsHex) => self.cut(unhex(self.heap, text)?.as_slice()),
            Some(Verb::Find) => self.find(text),
            Some(Verb::Recipe) => self.recipe(text),
            Some(Verb::Judge) => self.judge(text),
            Some(Verb::Help) => Ok(String::from_str(self.heap, HELP)?),
            None => self.reading(ReadingCall::named(name).ok_or(Fault::Unknown)?, rest),
        }
    }

    // The answer to a script line.
    pub fn answer(&mut self, line: &[u8]) -> Result<String, AllocError> {
        match self.call(line) {
            Ok(answer) => Ok(answer),
            Err(Fault::Unknown) => String::from_str(
                self.heap,
                "unknown call: help lists the calls",
            ),
            Err(Fault::Malformed(wanted)) => format!(in self.heap; "malformed: {wanted}"),
            Err(Fault::Refused(refusal)) => {
                self.tally.refuse();
                answer::refused(self.heap, refusal)
            }
            Err(Fault::NoMemory) => Err(AllocError),
        }
    }
}
