//! An example of each method of an option.
use ix_names::RelocatableOption;
use std::test::Fail;

// Shows: RelocatableOption, RelocatableOption::to_option, From<Option<T>> for RelocatableOption
// Shows: From<RelocatableOption<T>> for Option
#[test]
fn an_option_of_std_and_back(rt: HostRuntime) {
    let option = RelocatableOption::from(Some(80));
    assert!(rt; option == RelocatableOption::Some(80));
    assert!(rt; option.to_option() == Some(80));
    assert!(rt; Option::from(option) == Some(80));
    let nothing: RelocatableOption<u64> = RelocatableOption::None;
    assert!(rt; nothing.to_option() == None);
}

// Shows: RelocatableOption::is_some, RelocatableOption::is_none, Default for RelocatableOption
#[test]
fn whether_there_is_a_value(rt: HostRuntime) {
    assert!(rt; RelocatableOption::Some(80).is_some());
    assert!(rt; RelocatableOption::<u64>::default().is_none());
}

// Shows: RelocatableOption::as_option_ref, RelocatableOption::as_ref
#[test]
fn the_value_is_borrowed(rt: HostRuntime) {
    let port = RelocatableOption::Some(80);
    assert!(rt; port.as_option_ref() == Some(&80));
    assert!(rt; port.as_ref() == RelocatableOption::Some(&80));
}

// Shows: RelocatableOption::as_option_mut, RelocatableOption::as_mut
#[test]
fn the_value_is_changed_in_its_place(rt: HostRuntime) {
    let mut port = RelocatableOption::Some(80);
    if let Some(value) = port.as_option_mut() {
        *value = 443;
    }
    assert!(rt; port == RelocatableOption::Some(443));
    if let RelocatableOption::Some(value) = port.as_mut() {
        *value = 22;
    }
    assert!(rt; port == RelocatableOption::Some(22));
}

// Shows: RelocatableOption::as_deref, RelocatableOption::as_deref_mut
#[test]
fn what_the_value_dereferences_to(rt: HostRuntime) -> Result<(), Fail> {
    let mut port = RelocatableOption::Some(Box::new(rt.alloc(), 80u64)?);
    if let RelocatableOption::Some(value) = port.as_deref_mut() {
        *value = 443;
    }
    assert!(rt; port.as_deref() == RelocatableOption::Some(&443));
    Ok(())
}

// Shows: RelocatableOption::unwrap, RelocatableOption::expect, RelocatableOption::unwrap_unchecked
#[test]
fn the_value_is_known_to_be_there(rt: HostRuntime) {
    let port = RelocatableOption::Some(80);
    assert!(rt; port.unwrap() == 80);
    assert!(rt; port.expect("it was set") == 80);
    assert!(rt; port.unwrap_unchecked() == 80);
}

// Shows: RelocatableOption::unwrap_or, RelocatableOption::unwrap_or_default
// Shows: RelocatableOption::unwrap_or_else
#[test]
fn another_value_in_place_of_none(rt: HostRuntime) {
    let port = RelocatableOption::Some(80);
    let nothing: RelocatableOption<u64> = RelocatableOption::None;
    assert!(rt; port.unwrap_or(22) == 80);
    assert!(rt; nothing.unwrap_or(22) == 22);
    assert!(rt; nothing.unwrap_or_default() == 0);
    assert!(rt; nothing.unwrap_or_else(|| 443) == 443);
}

// Shows: RelocatableOption::map
#[test]
fn what_a_function_returns_of_the_value(rt: HostRuntime) {
    let port = RelocatableOption::Some(80u64);
    assert!(rt; port.map(|port| port / 2) == RelocatableOption::Some(40));
}

// Shows: RelocatableOption::inspect
#[test]
fn the_value_is_looked_at_on_its_way(rt: HostRuntime) {
    let mut seen = 0;
    let port = RelocatableOption::Some(80).inspect(|port| seen = *port);
    assert!(rt; seen == 80);
    assert!(rt; port == RelocatableOption::Some(80));
}

// Shows: RelocatableOption::ok_or
#[test]
fn none_becomes_an_error(rt: HostRuntime) {
    let port = RelocatableOption::Some(80);
    let nothing: RelocatableOption<u64> = RelocatableOption::None;
    assert!(rt; port.ok_or("no port") == Ok(80));
    assert!(rt; nothing.ok_or("no port") == Err("no port"));
}

// Shows: RelocatableOption::replace, RelocatableOption::take
#[test]
fn a_value_is_put_in_and_taken_out(rt: HostRuntime) {
    let mut port = RelocatableOption::None;
    assert!(rt; port.replace(80) == RelocatableOption::None);
    assert!(rt; port.replace(443) == RelocatableOption::Some(80));
    assert!(rt; port.take() == RelocatableOption::Some(443));
    assert!(rt; port.is_none());
}

// Shows: RelocatableOption::take_if
#[test]
fn a_value_is_taken_if_it_passes_a_test(rt: HostRuntime) {
    let mut port = RelocatableOption::Some(80);
    assert!(rt; port.take_if(|port| *port > 1024) == RelocatableOption::None);
    assert!(rt; port.take_if(|port| *port < 1024) == RelocatableOption::Some(80));
    assert!(rt; port.is_none());
}

// Shows: PartialOrd for RelocatableOption
#[test]
fn none_is_less_than_any_value(rt: HostRuntime) {
    assert!(rt; RelocatableOption::None < RelocatableOption::Some(0));
    assert!(rt; RelocatableOption::Some(1) < RelocatableOption::Some(2));
}
