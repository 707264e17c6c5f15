//! The lines of a file of cases.
use crate::case::{Case, Named};
use crate::piece::{add_piece, number};
use crate::stop::Stop;
use std::alloc::Global;

// To which text the next pieces belong.
#[derive(Clone, Copy, PartialEq, Eq)]
enum Place {
    Nowhere,
    Text,
    First,
    Second,
    Out,
    Err,
}

/// Reads cases line by line.
#[derive(Drop)]
pub struct Reader {
    texts: Vec<Named>,
    case: Option<Case>,
    place: Place,
}

// The first word of a line, and what follows the space that ends it.
fn word_and_rest(line: &str) -> (&str, &str) {
    match line.split_once(' ') {
        Some(parts) => parts,
        None => (line, ""),
    }
}

impl Reader {
    /// Returns a reader of a first line.
    pub fn new(alloc: Global) -> Reader {
        Reader {
            texts: Vec::new(alloc),
            case: None,
            place: Place::Nowhere,
        }
    }

    /// Returns whether the line ends the case before it.
    pub fn ends_case(&self, line: &str) -> bool {
        let (word, _) = word_and_rest(line);
        word == "case" || word == "text"
    }

    /// Returns the case whose lines were read, which is then no longer here; None where there was none.
    pub fn take_case(&mut self) -> Result<Option<Case>, Stop> {
        self.place = Place::Nowhere;
        let Some(case) = self.case.take() else {
            return Ok(None);
        };
        if case.status.is_none() {
            return Err(Stop::Expected("expected a status in the case before"));
        }
        if case.runs.is_empty() {
            return Err(Stop::Expected("expected words in the case before"));
        }
        Ok(Some(case))
    }

    /// Reads a line.
    pub fn read(&mut self, alloc: Global, line: &str) -> Result<(), Stop> {
        if line.is_empty() || line.starts_with('#') {
            return Ok(());
        }
        let (word, rest) = word_and_rest(line);
        match word {
            "case" => self.begin_case(alloc, rest),
            "text" => self.begin_text(alloc, rest),
            _ => {
                if self.read_piece(alloc, word, rest)? {
                    return Ok(());
                }
                self.place = Place::Nowhere;
                match &mut self.case {
                    Some(case) => {
                        self.place = read_item(alloc, case, word, rest)?;
                        Ok(())
                    }
                    None => Err(Stop::Expected("expected a case or a text")),
                }
            }
        }
    }

    fn begin_case(&mut self, alloc: Global, name: &str) -> Result<(), Stop> {
        let name = String::from_str(alloc, name)?;
        self.place = Place::Nowhere;
        self.case = Some(Case::new(alloc, name));
        Ok(())
    }

    // Begins a text that later lines may use.
    fn begin_text(&mut self, alloc: Global, name: &str) -> Result<(), Stop> {
        if self.texts.iter().any(|text| text.name.as_str() == name) {
            return Err(Stop::Expected("expected a name that no text has"));
        }
        self.place = Place::Text;
        self.texts.push(Named {
            name: String::from_str(alloc, name)?,
            bytes: Vec::new(alloc),
        })?;
        Ok(())
    }

    // Adds a piece to the text that is being made: false where the line has none.
    fn read_piece(&mut self, alloc: Global, word: &str, rest: &str) -> Result<bool, Stop> {
        if self.place == Place::Text {
            let Some(mut named) = self.texts.pop() else {
                return Ok(false);
            };
            let is_piece = add_piece(alloc, &self.texts, &mut named.bytes, word, rest)?;
            self.texts.push(named)?;
            return Ok(is_piece);
        }
        let Some(case) = &mut self.case else {
            return Ok(false);
        };
        match text_at(case, self.place) {
            Some(text) => add_piece(alloc, &self.texts, text, word, rest),
            None => Ok(false),
        }
    }
}

// The text of the case to which pieces belong.
fn text_at(case: &mut Case, place: Place) -> Option<&mut Vec<u8>> {
    match place {
        Place::Out => Some(&mut case.out),
        Place::Err => Some(&mut case.err),
        Place::First => bytes_of(&mut case.first),
        Place::Second => bytes_of(&mut case.second),
        Place::Nowhere | Place::Text => None,
    }
}

fn bytes_of(file: &mut Option<Named>) -> Option<&mut Vec<u8>> {
    match file {
        Some(named) => Some(&mut named.bytes),
        None => None,
    }
}

// Reads a line of a case that is no piece of a text, and says to which text the next pieces belong.
fn read_item(alloc: Global, case: &mut Case, word: &str, rest: &str) -> Result<Place, Stop> {
    match word {
        "words" => add_run(alloc, case, rest)?,
        "word" => add_word(alloc, case, rest)?,
        "file" => return add_file(alloc, case, rest),
        "read" => case.read = number(rest)?,
        "write" => case.write = number(rest)?,
        "room" => case.room = number(rest)?,
        "fail" => add_fails(case, rest)?,
        "each" => add_each(case, rest)?,
        "status" => add_status(case, rest)?,
        "out" => return Ok(Place::Out),
        "err" => return Ok(Place::Err),
        "differs" => case.differs = true,
        _ => return Err(Stop::Expected("expected a line of a case")),
    }
    Ok(Place::Nowhere)
}

fn add_run(alloc: Global, case: &mut Case, rest: &str) -> Result<(), Stop> {
    let mut words = Vec::new(alloc);
    if !rest.is_empty() {
        for word in rest.split(' ') {
            words.push(String::from_str(alloc, word)?)?;
        }
    }
    case.runs.push(words)?;
    Ok(())
}

fn add_word(alloc: Global, case: &mut Case, rest: &str) -> Result<(), Stop> {
    let word = String::from_str(alloc, rest)?;
    match case.runs.last_mut() {
        Some(words) => words.push(word)?,
        None => return Err(Stop::Expected("expected words before")),
    }
    Ok(())
}

fn add_file(alloc: Global, case: &mut Case, name: &str) -> Result<Place, Stop> {
    let file = Named {
        name: String::from_str(alloc, name)?,
        bytes: Vec::new(alloc),
    };
    if case.first.is_none() {
        case.first = Some(file);
        return Ok(Place::First);
    }
    if case.second.is_none() {
        case.second = Some(file);
        return Ok(Place::Second);
    }
    Err(Stop::Expected("expected two files at most"))
}

fn add_fails(case: &mut Case, rest: &str) -> Result<(), Stop> {
    let (whose, numbers) = word_and_rest(rest);
    let fails = match whose {
        "shelf" => &mut case.fails.shelf,
        "out" => &mut case.fails.out,
        "err" => &mut case.fails.err,
        _ => return Err(Stop::Expected("expected shelf, out or err")),
    };
    for word in numbers.split(' ') {
        fails.push(call_number(word)?)?;
    }
    Ok(())
}

fn call_number(text: &str) -> Result<u64, Stop> {
    match text.parse::<u64>() {
        Ok(n) => Ok(n),
        Err(_) => Err(Stop::Expected("expected the number of a call")),
    }
}

fn add_each(case: &mut Case, rest: &str) -> Result<(), Stop> {
    let (what, count) = word_and_rest(rest);
    match what {
        "read" => case.calls = Some(call_number(count)?),
        "write" => case.each_write = true,
        _ => return Err(Stop::Expected("expected read or write")),
    }
    Ok(())
}

fn add_status(case: &mut Case, rest: &str) -> Result<(), Stop> {
    if case.status.is_some() {
        return Err(Stop::Expected("expected one status"));
    }
    match rest.parse::<u8>() {
        Ok(n) => case.status = Some(n),
        Err(_) => return Err(Stop::Expected("expected the number of a status")),
    }
    Ok(())
}
