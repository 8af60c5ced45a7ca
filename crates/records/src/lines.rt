// A line for each record: what became of it, and the card behind it.
ghost use Rattle.std.specs.Prelude.{◌≡◌, map, IfOk};
ghost use Rattle.calls.specs.Plain.{reply_of};
ghost use Rattle.records.specs.Lines.{card_in, with_card, told, seen_told, lines_from};
ghost use Rattle.records.specs.Records.{seen};

use crate::cuts::Record;
use crate::facts::Line;
use calls::Reply;
use display::cards::CardNumbers;
use refusal::Fault;
use std::alloc::{AllocError, Global};

// The card that a reply tells.
fn card_in(reply: &Reply) -> Option<CardNumbers>
    ensures { result ≡ card_in (reply_of reply.now) }
{
    match reply {
        Reply::Shows(card) => *card,
        _ => None,
    }
}

// A line with the card that the first reply tells, and the replies behind it; none where there is no reply.
fn with_card<'r>(
    number: usize,
    refusal: Option<Fault>,
    replies: &'r [Reply],
) -> Option<(Line, &'r [Reply])>
    ensures { seen_told result ≡ with_card number refusal (map reply_of replies.now) }
{
    let (first, rest) = replies.split_first()?;
    let refusal = refusal.map_or(0, |fault| fault.number());
    let (accession, since) = card_in(first).map_or((0, 0), |card| (card.accession, card.since));
    let line = Line {
        number,
        refusal,
        accession,
        since,
    };
    Some((line, rest))
}

// A record's line and the replies behind its own; none where a reply is missing.
fn tell<'r>(number: usize, said: &Record<'_>, replies: &'r [Reply]) -> Option<(Line, &'r [Reply])>
    ensures { seen_told result ≡ told number (seen said.now) (map reply_of replies.now) }
{
    match said {
        Ok(_) => {
            let (own, rest) = replies.split_first()?;
            with_card(number, own.fault(), rest)
        }
        Err(fault) => with_card(number, Some(*fault), replies),
    }
}

// The lines of all records, numbered from 1.
pub fn lines_of(
    heap: Global,
    records: &[Record<'_>],
    replies: &[Reply],
) -> Result<Vec<Line>, AllocError>
    ensures { IfOk result (λ v. v.items ≡ lines_from 1 (map seen records.now) (map reply_of replies.now)) }
{
    let mut all = Vec::new(heap);
    let mut left = replies;
    for (i, record) in records.iter().enumerate() {
        let Some((line, rest)) = tell(i + 1, record, left) else {
            return Ok(all);
        };
        all.push(line)?;
        left = rest;
    }
    Ok(all)
}
