//! Examples of lines of scripts that have a list.
use ix_commands::{StringCommand, VectorCommand};
use ix_run::run::{MAX_NUMBERS, read_string_command, read_vector_command};

// Shows: ix_run::run::read_vector_command
#[test]
fn the_numbers_of_a_list_lie_in_a_buffer(rt: HostRuntime) {
    let mut numbers = [0; MAX_NUMBERS];
    match read_vector_command(b"extend 7 8", &mut numbers) {
        Some(VectorCommand::Extend(items)) => assert!(rt; items == [7, 8].as_slice()),
        _ => assert!(rt; false, "it is an `extend`"),
    }
}

// Shows: ix_run::run::read_string_command
#[test]
fn the_bytes_of_a_list_lie_in_a_buffer(rt: HostRuntime) {
    let mut bytes = [0; MAX_NUMBERS];
    match read_string_command(b"append 104 105", &mut bytes) {
        Some(StringCommand::Append(text)) => assert!(rt; text == b"hi".as_slice()),
        _ => assert!(rt; false, "it is an `append`"),
    }
}
