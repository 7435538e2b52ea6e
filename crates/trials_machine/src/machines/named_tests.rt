//! The paths that the payload of a request names (RFC 6241 7.2, 7.3), which an answer may name where the
//! session does not see them (RFC 8341 3.2.5).
//!
//! A path is written as the numbers of its nodes, with the key of an entry: `0` is the leaf host, `1` the
//! leaf-list tag, `2` the list port with `3` its key name and `4` the leaf speed.
use super::{asked, is_same, put};
use crate::sample::schema;
use nc_names::{Boxed, Many, Path, Step, Text};
use nc_payload::Names;
use nc_protocol::{Asked, Request};
use nc_schema::Schema;
use std::alloc::Global;
use std::process::Abort;

// The paths that are asked for.
const PATHS: &[&str] = &["0", "1", "1:x", "2", "2:p", "2:p/3", "2:p/4", "2:q"];

fn add_key(rt: &impl Abort, alloc: Global, keys: &mut Many<Text>, word: &str) {
    if !word.is_empty() {
        keys.push(Text::from_text(alloc, word).expect(rt, "memory"))
            .expect(rt, "memory");
    }
}

// A step from `2:p`, a number and a key.
fn step(rt: &impl Abort, alloc: Global, part: &str) -> Step {
    let (number, word) = part.split_once(':').unwrap_or((part, ""));
    let mut keys = Many::new(alloc);
    add_key(rt, alloc, &mut keys, word);
    Step {
        node: number.parse::<u32>().unwrap_or(0),
        keys,
    }
}

// A path from `2:p/4`.
fn path(rt: &impl Abort, alloc: Global, steps: &str) -> Path {
    let mut path = Path {
        steps: Many::new(alloc),
    };
    for part in steps.split('/') {
        path.steps.push(step(rt, alloc, part)).expect(rt, "memory");
    }
    path
}

fn put_where(rt: &impl Abort, shown: &mut String, named: bool, one: &str) {
    if named {
        put(rt, shown, one);
        put(rt, shown, " ");
    }
}

// Of these paths, those that the payload of what is asked for names, each with a space after it.
fn put_named(rt: &impl Abort, alloc: Global, shown: &mut String, schema: &Schema, asked: &Asked) {
    let names = Names::of(alloc, schema, asked).expect(rt, "memory");
    for one in PATHS {
        let path = path(rt, alloc, one);
        put_where(rt, shown, names.names(&path), one);
    }
}

fn put_of(rt: &impl Abort, alloc: Global, shown: &mut String, schema: &Schema, request: &Request) {
    match &request.asked {
        Ok(asked) => put_named(rt, alloc, shown, schema, asked),
        Err(_) => put(rt, shown, "no request"),
    }
}

// Looks whether the payload of an operation names these paths.
fn names_are(rt: &impl Abort, alloc: Global, schema: &Schema, operation: &str, wanted: &str) {
    let request = asked(rt, alloc, operation);
    let mut shown = String::new(alloc);
    put_of(rt, alloc, &mut shown, schema, request.get());
    is_same(rt, operation, shown.as_str(), wanted);
}

const NAMED: &[(&str, &str)] = &[
    // the elements of a payload, and what stands above them
    (
        "<edit-config><target><candidate/></target><config/></edit-config>",
        "",
    ),
    (
        "<edit-config><target><candidate/></target><config><host xmlns=\"urn:ex\">h</host></config>\
         </edit-config>",
        "0 ",
    ),
    (
        "<edit-config><target><candidate/></target><config><port xmlns=\"urn:ex\"><name>p</name>\
         <speed>1</speed></port></config></edit-config>",
        "2:p 2:p/3 2:p/4 ",
    ),
    (
        "<edit-config><target><candidate/></target><config><tag xmlns=\"urn:ex\">x</tag>\
         <port xmlns=\"urn:ex\"><name>q</name></port></config></edit-config>",
        "1:x 2:q ",
    ),
    // a fault names its own path: an entry without its key that of its list
    (
        "<edit-config><target><candidate/></target><config><port xmlns=\"urn:ex\"><speed>1</speed></port>\
         </config></edit-config>",
        "2 ",
    ),
    // a value that names no entry that of its leaf-list
    (
        "<edit-config><target><candidate/></target><config><tag xmlns=\"urn:ex\">it's \"x\"</tag></config>\
         </edit-config>",
        "1 ",
    ),
    // what the schema does not have names nothing, and the elements beside it do
    (
        "<edit-config><target><candidate/></target><config><nope/><host xmlns=\"urn:ex\">h</host></config>\
         </edit-config>",
        "0 ",
    ),
    (
        "<edit-config><target><candidate/></target><config><host xmlns=\"urn:ex\"><tag/></host></config>\
         </edit-config>",
        "0 ",
    ),
    // so does an inline configuration
    (
        "<validate><source><config><host xmlns=\"urn:ex\">h</host><tag xmlns=\"urn:ex\">x</tag></config>\
         </source></validate>",
        "0 1:x ",
    ),
    (
        "<copy-config><target><candidate/></target><source><config><port xmlns=\"urn:ex\"/></config></source>\
         </copy-config>",
        "2 ",
    ),
    // other requests name nothing
    (
        "<copy-config><target><candidate/></target><source><running/></source></copy-config>",
        "",
    ),
    ("<discard-changes/>", ""),
];

#[test]
fn a_payload_names_the_paths_of_its_elements_and_of_its_fault(rt: HostRuntime) {
    let alloc = rt.alloc();
    let schema = Boxed::new(alloc, schema(alloc).expect(&rt, "memory")).expect(&rt, "memory");
    for (operation, wanted) in NAMED {
        names_are(&rt, alloc, schema.get(), operation, wanted);
    }
}
