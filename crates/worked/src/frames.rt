// The calls on whole frames, and on the tags, the codes and the table that frames are checked by.
use crate::answer::Report;
use crate::call::Call;
use crate::rules::{number, table_number};
use capi::{code, command, dispatch, header, response};

pub(crate) fn read(call: Call, bytes: &[u8]) -> Option<Report> {
    let out = &mut [0u64; 8];
    let rules = number(call.rules);
    let table = table_number(call.rules.revision);
    let (count, number) = match call.name {
        b"frame_tag" => (1, header::skein_frame_tag(bytes, out)),
        b"frame_size" => (1, header::skein_frame_size(bytes, out)),
        b"frame_len" => (1, header::skein_frame_len(bytes, out)),
        b"frame_is_empty" => (1, header::skein_frame_is_empty(bytes, out)),
        b"command_cast" => (2, command::skein_command_cast(rules, bytes, out)),
        b"command_cast_prefix" => (4, command::skein_command_cast_prefix(rules, bytes, out)),
        b"command_validate" => (0, command::skein_command_validate(rules, bytes, out)),
        b"command_cc" => (1, command::skein_command_cc(rules, bytes, out)),
        b"command_handles" => (2, command::skein_command_handles(rules, bytes, out)),
        b"command_auth_area" => (2, command::skein_command_auth_area(rules, bytes, out)),
        b"command_parameters" => (2, command::skein_command_parameters(rules, bytes, out)),
        b"response_cast" => (2, response::skein_response_cast(rules, bytes, out)),
        b"response_cast_prefix" => (4, response::skein_response_cast_prefix(rules, bytes, out)),
        b"response_validate" => (
            0,
            response::skein_response_validate(rules, call.code()?, bytes, out),
        ),
        b"response_rc" => (1, response::skein_response_rc(rules, bytes, out)),
        b"response_body" => (2, response::skein_response_body(bytes, out)),
        b"rc_read" => (4, code::skein_rc_read(call.code()?, out)),
        b"table_find" => (2, dispatch::skein_table_find(table, call.code()?, out)),
        b"table_known" => (1, dispatch::skein_table_known(table, call.code()?, out)),
        b"tag_known" => (1, dispatch::skein_tag_known(call.tag()?, out)),
        _ => return None,
    };
    Some(Report {
        number,
        count,
        out: *out,
    })
}

pub(crate) fn write(call: Call, bytes: &mut [u8]) -> Option<Report> {
    let out = &mut [0u64; 8];
    let rules = number(call.rules);
    let number = match call.name {
        b"frame_set_tag" => header::skein_frame_set_tag(call.tag()?, bytes, out),
        b"command_set_cc" => command::skein_command_set_cc(rules, call.code()?, bytes, out),
        b"response_set_rc" => response::skein_response_set_rc(rules, call.code()?, bytes, out),
        _ => return None,
    };
    Some(Report::bare(number, *out))
}
