// The lines of the input.
use verifier_sessions::Event;

/// What a line says.
pub enum Line<'a> {
    /// A new table begins.
    New,
    /// An event at a moment.
    Event(u64, Event<'a>),
}

/// What a line says, and none where it is no such line.
pub fn read_line(line: &str) -> Option<Line<'_>> {
    if line == "new" {
        return Some(Line::New);
    }
    let (word, rest) = line.split_once(' ')?;
    let (moment, rest) = rest.split_once(' ')?;
    let moment = moment.parse::<u64>().ok()?;
    Some(Line::Event(moment, read_event(word, rest)?))
}

fn read_event<'a>(word: &str, rest: &'a str) -> Option<Event<'a>> {
    match word {
        "open" => {
            let (id, nonce) = rest.split_once(' ')?;
            Some(Event::Open { id, nonce })
        }
        "post" => {
            let (id, verdict) = rest.split_once(' ')?;
            match verdict {
                "yes" => Some(Event::Post { id, yes: true }),
                "no" => Some(Event::Post { id, yes: false }),
                _ => None,
            }
        }
        "look" => Some(Event::Look { id: rest }),
        _ => None,
    }
}
