// What is asked for, at random.
use crate::any_rows::{any_name, below};
use message_choice::Pick;
use payload_records::{List, Name, Text};
use place_keys::Place;
use queue_rows::{Mode, Navigation, Position, QueueRow, TableRow};
use rule_conditions::{Atom, Cond, Product, Sum, Term};
use std::alloc::{AllocError, Global};
use std::test::Fail;

/// What the parts of a pick that are lent are lent from.
pub struct Asked {
    consumer: Option<Name>,
    position: Option<Position>,
    corr: Option<Text>,
    condition: Option<Cond>,
}

impl Drop for Asked {
    fn drop(self) {
        let Self {
            consumer: _,
            position: _,
            corr: _,
            condition: _,
        } = self;
    }
}

fn any_position(seed: &mut u32, alloc: Global) -> Result<Option<Position>, Fail> {
    if below(seed, 3) == 0 {
        return Ok(None);
    }
    let group = below(seed, 4);
    let queue = Name::read(alloc, "q")?;
    let numbers = [i64::from(below(seed, 3))];
    let place = Place::of(alloc, i64::from(group), &numbers, u64::from(below(seed, 9)))?;
    Ok(Some(Position {
        queue,
        consumer: None,
        place,
        group: u64::from(group),
    }))
}

fn any_pattern(seed: &mut u32, alloc: Global) -> Result<Option<Text>, AllocError> {
    let text = match below(seed, 4) {
        0 => "a%",
        1 => "%b",
        _ => return Ok(None),
    };
    Ok(Some(Text::of(alloc, text)?))
}

fn corr(alloc: Global) -> Result<Sum, AllocError> {
    let mut atoms = List::new(alloc);
    atoms.push(Atom::Corr)?;
    let product = Product { atoms };
    let mut terms = List::new(alloc);
    terms.push(Term {
        minus: false,
        product,
    })?;
    Ok(Sum { terms })
}

// Whether the correlation is null, or is not.
fn any_condition(seed: &mut u32, alloc: Global) -> Result<Option<Cond>, AllocError> {
    if below(seed, 3) == 0 {
        Ok(Some(Cond::IsNull(corr(alloc)?, below(seed, 2) == 0)))
    } else {
        Ok(None)
    }
}

/// What is lent to a pick.
pub fn any_asked(seed: &mut u32, alloc: Global) -> Result<Asked, Fail> {
    let consumer = any_name(seed, alloc)?;
    let position = any_position(seed, alloc)?;
    let corr = any_pattern(seed, alloc)?;
    let condition = any_condition(seed, alloc)?;
    Ok(Asked {
        consumer,
        position,
        corr,
        condition,
    })
}

fn any_mode(seed: &mut u32) -> Mode {
    match below(seed, 4) {
        0 => Mode::Browse,
        1 => Mode::Locked,
        2 => Mode::RemoveNodata,
        _ => Mode::Remove,
    }
}

fn any_navigation(seed: &mut u32) -> Navigation {
    match below(seed, 3) {
        0 => Navigation::First,
        1 => Navigation::Next,
        _ => Navigation::NextTransaction,
    }
}

/// A pick of what was asked for in that queue and table, with any mode and navigation.
pub fn any_pick<'a>(
    seed: &mut u32,
    asked: &'a Asked,
    queue: &'a QueueRow,
    table: &'a TableRow,
) -> Pick<'a> {
    Pick {
        queue,
        table,
        consumer: asked.consumer.as_ref(),
        mode: any_mode(seed),
        navigation: any_navigation(seed),
        position: asked.position.as_ref(),
        corr: asked.corr.as_ref(),
        condition: asked.condition.as_ref(),
    }
}
