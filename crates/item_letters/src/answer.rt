//! The letters of answers.
ghost use Rattle.std.specs.Prelude.{◌≡◌};
ghost use Rattle.item_letters.specs.Letters.{letter_of_answer as answer_letter, letter_of_flow as flow_letter, letter_of_place as place_letter};

use crate::caps::letter_of_caps;
use flow_model::{ElementFault, StreamKind};
use gst_item::Flow;

/// `+` for Ok, `.` for Eos, and `?` for another answer.
pub fn letter_of_flow(flow: Flow) -> u8
    ensures { result ≡ flow_letter flow }
{
    match flow {
        Flow::Ok => b'+',
        Flow::Eos => b'.',
        _ => b'?',
    }
}

/// The digit of a place from 1 to 9, and `Z` for another one.
pub fn letter_of_place(place: u64) -> u8
    ensures { result ≡ place_letter place }
{
    if 1 <= place && place <= 9 {
        b'0' + place as u8
    } else {
        b'Z'
    }
}

/// The letter of an answer, and for caps that are not wanted that of those that were offered, or `0` for none. A split
/// frame is its place, and another fault `!`.
pub fn letter_of_answer(answer: &Result<Flow, ElementFault>) -> u8
    ensures { result ≡ answer_letter answer.now }
{
    match answer {
        Ok(flow) => letter_of_flow(*flow),
        Err(ElementFault::NotNegotiated { offered: None, .. }) => b'0',
        Err(
            ElementFault::NotNegotiated {
                offered: Some(caps),
                ..
            },
        ) => letter_of_caps(caps),
        Err(
            ElementFault::BadStream {
                place,
                kind: StreamKind::SplitFrame,
            },
        ) => letter_of_place(*place),
        Err(_) => b'!',
    }
}
