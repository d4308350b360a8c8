ghost use Rattle.std.specs.Prelude.{◌≡◌, ℕ, ◌+◌, ◌<◌, ◌≤◌, length};
ghost use Rattle.text.specs.Records.{code_of, kind_of, body_of, body_length, Decodes, KindAt, RecordAt};

use crate::fault::RecordFault;

// The kinds of records, each with its byte.
#[derive(Clone, Copy)]
pub enum Kind {
    Size = 1,
    First = 2,
    Action = 3,
    Effect = 4,
    End = 5,
    Question = 6,
}

// A record, each case with its body as it stands in the text.
#[derive(Clone, Copy)]
pub enum Record<'a> {
    // how many atoms and hands there are
    Size(&'a [u8]),
    // the first state
    First(&'a [u8]),
    // the precondition of an action
    Action(&'a [u8]),
    // condition, add and delete of an effect of the latest action
    Effect(&'a [u8]),
    // the end of the problem
    End,
    // need, avoid, limit and budget of a question to the program
    Question(&'a [u8]),
}

// A record that was found: the offset of its kind byte, and where the next one would begin.
#[derive(Clone, Copy)]
pub struct Found<'a> {
    pub at: usize,
    pub record: Record<'a>,
    pub next: usize,
}

impl Kind {
    // How long the body is.
    fn body_length(self) -> usize
        ensures { result ≡ body_length (code_of self) }
    {
        match self {
            Kind::Size => 2,
            Kind::First | Kind::Action => 8,
            Kind::Effect => 24,
            Kind::End => 0,
            Kind::Question => 21,
        }
    }

    // The record of this kind with that body.
    fn with_body<'a>(self, body: &'a [u8]) -> Record<'a>
        requires { length body.now ≡ body_length (code_of self) }
        ensures kind { kind_of result ≡ code_of self }
        ensures body { body_of result ≡ body.now }
    {
        match self {
            Kind::Size => Record::Size(body),
            Kind::First => Record::First(body),
            Kind::Action => Record::Action(body),
            Kind::Effect => Record::Effect(body),
            Kind::End => Record::End,
            Kind::Question => Record::Question(body),
        }
    }
}

// The kind that a byte stands for; no kind for any other byte.
impl TryFrom<u8> for Kind {
    type Error = ();

    ghost try_from_gives = { Decodes };

    fn try_from(byte: u8) -> Result<Kind, ()> {
        match byte {
            1 => Ok(Kind::Size),
            2 => Ok(Kind::First),
            3 => Ok(Kind::Action),
            4 => Ok(Kind::Effect),
            5 => Ok(Kind::End),
            6 => Ok(Kind::Question),
            _ => Err(()),
        }
    }
}

// The kind of the record at `at`, whether or not its body is whole.
pub fn kind_at(text: &[u8], at: usize) -> Result<Kind, RecordFault>
    ensures { KindAt text.now at result }
{
    let byte = *text.get(at).ok_or(RecordFault::Cut(at))?;
    Kind::try_from(byte).map_err(|()| RecordFault::Unknown(at))
}

// The record at `at`.
pub fn record_at<'a>(text: &'a [u8], at: usize) -> Result<Found<'a>, RecordFault>
    ensures { RecordAt text.now at result }
{
    let kind = kind_at(text, at)?;
    let rest = &text[at + 1..];
    let body = rest.get(..kind.body_length()).ok_or(RecordFault::Cut(at))?;
    Ok(Found {
        at,
        record: kind.with_body(body),
        next: at + 1 + body.len(),
    })
}
