// How much room the models of a text take, counted ahead, so that no list grows while it is filled.
use crate::lines::{Lines, LogicalLine};
use crate::sections::is_model;
use crate::statements::arguments;
use crate::words::Statement;

/// How many items the lists of a model have.
#[derive(Clone, Copy)]
pub struct Rooms {
    pub inputs: usize,
    pub outputs: usize,
    pub defs: usize,
    pub calls: usize,
}

/// The counts with what one more line says.
fn with_line(rooms: Rooms, line: &LogicalLine<'_>) -> Rooms {
    let mut rooms = rooms;
    match line.statement() {
        Statement::Inputs => {
            rooms.inputs = rooms.inputs.saturating_add(arguments(line.tokens()).len());
        }
        Statement::Outputs => {
            rooms.outputs = rooms.outputs.saturating_add(arguments(line.tokens()).len());
        }
        Statement::Names => rooms.defs = rooms.defs.saturating_add(1),
        Statement::Subckt => rooms.calls = rooms.calls.saturating_add(1),
        _ => {}
    }
    rooms
}

/// How many items the lists of the model have that lines say. Only the room that is taken ahead depends on it.
pub fn rooms_of(lines: &Lines<'_>) -> Rooms {
    let mut rooms = Rooms {
        inputs: 0,
        outputs: 0,
        defs: 0,
        calls: 0,
    };
    let mut rest = lines.copy();
    'lines: while let Some(line) = rest.take_first() {
        rooms = with_line(rooms, &line);
    }
    rooms
}

/// How many models lines say, or one more. Only the room that is taken ahead depends on it.
pub fn model_room(lines: &Lines<'_>) -> usize {
    let mut count: usize = 1;
    let mut rest = lines.copy();
    'lines: while let Some(line) = rest.take_first() {
        if is_model(&line) {
            count = count.saturating_add(1);
        }
    }
    count
}
