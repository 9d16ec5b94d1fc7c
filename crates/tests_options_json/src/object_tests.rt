//! A struct of a program as an object: each field is a member, by the methods of the field's type.
use ix_json::JsonFault::{BadByte, OutOfMemory, TooLong, WrongKind};
use ix_json::{JsonFault, JsonForm};
use ix_relocatable_option::RelocatableOption;
use ix_string::StaticString;
use ix_vector::StaticVec;
use serde_json::{Map, Value};
use std::alloc::Global;
use std::test::Fail;
use test_support::Findings;

/// Checks the JSON text of a written value.
pub(crate) fn check_text(
    findings: &Findings,
    alloc: Global,
    written: Result<Value, JsonFault>,
    text: &str,
) {
    match written.map(|value| value.to_string(alloc)) {
        Ok(Ok(found)) => findings.expect_same(found.as_str(), text, "the text"),
        _ => findings.miss("there is memory for a text"),
    }
}

type Members = Map<std::string::String, Value>;

#[derive(PartialEq, Eq, Debug, Drop)]
struct Service {
    name: StaticString<5>,
    port: u16,
    offset: i64,
    open: bool,
    limit: RelocatableOption<u8>,
    loads: StaticVec<u64, 2>,
}

/// Puts the form of a field into the members.
fn put<T: JsonForm>(
    members: &mut Members,
    name: &str,
    field: &T,
    alloc: Global,
) -> Result<(), JsonFault> {
    let Ok(name) = std::string::String::from_str(alloc, name) else {
        return Err(OutOfMemory);
    };
    let member = field.to_value(alloc)?;
    match members.insert(name, member) {
        Ok(previous) => {
            drop(previous);
            Ok(())
        }
        Err(_) => Err(OutOfMemory),
    }
}

/// Reads a field from its member. One that is missing is of the wrong kind.
fn get<T: JsonForm>(members: &Members, name: &str) -> Result<T, JsonFault> {
    match members.get(name) {
        Some(member) => T::from_value(member),
        None => Err(WrongKind),
    }
}

fn write(service: &Service, alloc: Global) -> Result<Value, JsonFault> {
    let mut members = Map::new(alloc);
    put(&mut members, "name", &service.name, alloc)?;
    put(&mut members, "port", &service.port, alloc)?;
    put(&mut members, "offset", &service.offset, alloc)?;
    put(&mut members, "open", &service.open, alloc)?;
    put(&mut members, "limit", &service.limit, alloc)?;
    put(&mut members, "loads", &service.loads, alloc)?;
    Ok(Value::Object(members))
}

/// Reads the fields in their order. A text that is no JSON is read as `OutOfMemory`, which no row has.
fn read(alloc: Global, text: &str) -> Result<Service, JsonFault> {
    let Ok(value) = Value::from_str(alloc, text) else {
        return Err(OutOfMemory);
    };
    let Some(members) = value.as_object() else {
        return Err(WrongKind);
    };
    Ok(Service {
        name: get(members, "name")?,
        port: get(members, "port")?,
        offset: get(members, "offset")?,
        open: get(members, "open")?,
        limit: get(members, "limit")?,
        loads: get(members, "loads")?,
    })
}

/// The fields, and the object.
const SERVICES: &[(&str, u16, i64, bool, Option<u8>, &[u64], &str)] = &[
    (
        "web",
        80,
        -5,
        true,
        Some(9),
        &[1, 2],
        "{\"limit\":9,\"loads\":[1,2],\"name\":\"web\",\"offset\":-5,\"open\":true,\"port\":80}",
    ),
    (
        "",
        0,
        0,
        false,
        None,
        &[],
        "{\"limit\":null,\"loads\":[],\"name\":\"\",\"offset\":0,\"open\":false,\"port\":0}",
    ),
    (
        "a\"b",
        u16::MAX,
        i64::MIN,
        true,
        Some(0),
        &[u64::MAX],
        "{\"limit\":0,\"loads\":[18446744073709551615],\"name\":\"a\\\"b\",\
         \"offset\":-9223372036854775808,\"open\":true,\"port\":65535}",
    ),
];

#[test]
fn services(rt: HostRuntime) -> Result<(), Fail> {
    let findings = Findings::new();
    for (name, port, offset, open, limit, loads, text) in SERVICES {
        let (Ok(name), Ok(loads)) = (StaticString::try_from(*name), StaticVec::try_from(*loads))
        else {
            findings.miss(text);
            continue;
        };
        let service = Service {
            name,
            port: *port,
            offset: *offset,
            open: *open,
            limit: RelocatableOption::from(*limit),
            loads,
        };
        check_text(&findings, rt.alloc(), write(&service, rt.alloc()), text);
        findings.expect_same(read(rt.alloc(), text), Ok(service), text);
    }
    findings.verdict()
}

/// Objects with members that are no fields, and the error of the first field that has one.
const FAULTS: &[(&str, JsonFault)] = &[
    ("{\"name\":\"webweb\"}", TooLong),
    ("{\"name\":\"webw\u{e9}\"}", TooLong),
    ("{\"name\":\"web\u{e9}\"}", BadByte),
    ("{\"name\":\"\\u0000\"}", BadByte),
    ("{\"name\":null,\"port\":80}", WrongKind),
    ("{\"name\":\"web\",\"port\":65536}", WrongKind),
    ("{\"name\":\"web\",\"port\":1.0}", WrongKind),
    (
        "{\"name\":\"web\",\"port\":80,\"offset\":9223372036854775808}",
        WrongKind,
    ),
    (
        "{\"name\":\"web\",\"port\":80,\"offset\":0,\"open\":1}",
        WrongKind,
    ),
    (
        "{\"name\":\"web\",\"port\":80,\"offset\":0,\"open\":true,\"limit\":256}",
        WrongKind,
    ),
    (
        "{\"name\":\"web\",\"port\":80,\"offset\":0,\"open\":true,\"limit\":null,\"loads\":[1,2,-3]}",
        TooLong,
    ),
    (
        "{\"name\":\"web\",\"port\":80,\"offset\":0,\"open\":true,\"limit\":null,\"loads\":[1,-3]}",
        WrongKind,
    ),
    ("{}", WrongKind),
    ("[]", WrongKind),
    ("null", WrongKind),
];

#[test]
fn objects_that_are_no_service(rt: HostRuntime) -> Result<(), Fail> {
    let findings = Findings::new();
    for (text, fault) in FAULTS {
        findings.expect_same(read(rt.alloc(), text).err(), Some(*fault), text);
    }
    findings.verdict()
}
