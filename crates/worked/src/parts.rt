// The parts that can be written through.
use crate::call::Call;
use buffer::view;
use frame::{command, response};

// The part of that name.
pub(crate) fn part_mut<'a>(call: Call, bytes: &'a mut [u8]) -> Option<&'a mut [u8]> {
    let rules = call.rules;
    let capacity = call.first;
    match call.name {
        b"cast_mut" => Some(view::cast_mut(capacity, bytes)),
        b"cast_prefix_mut" => Some(view::cast_prefix_mut(capacity, bytes)),
        b"cast_prefix_tail_mut" => Some(view::cast_prefix_tail_mut(capacity, bytes)),
        b"data_mut" => Some(view::data_mut(bytes)),
        b"command_cast_mut" => Some(command::cast_mut(rules, bytes)),
        b"command_cast_prefix_mut" => Some(command::cast_prefix_mut(rules, bytes)),
        b"command_cast_prefix_tail_mut" => Some(command::cast_prefix_tail_mut(rules, bytes)),
        b"command_handles_mut" => Some(command::handles_mut(rules, bytes)),
        b"command_auth_area_mut" => Some(command::auth_area_mut(rules, bytes)),
        b"command_parameters_mut" => Some(command::parameters_mut(rules, bytes)),
        b"response_cast_mut" => Some(response::cast_mut(rules, bytes)),
        b"response_cast_prefix_mut" => Some(response::cast_prefix_mut(rules, bytes)),
        b"response_cast_prefix_tail_mut" => Some(response::cast_prefix_tail_mut(rules, bytes)),
        b"response_body_mut" => Some(response::body_mut(bytes)),
        _ => None,
    }
}
