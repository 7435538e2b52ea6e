//! Replies that the program does not give yet (RFC 6241 4.3, 7.5 to 7.9, 8.4; RFC 5717 2.4; RFC 8341 3.2.5,
//! 3.4.5), over a schema of two modules: `0` container top of ex (urn:ex), and `1` leaf note of more
//! (urn:more) in it.
use super::{asked, is_same, put, put_reply};
use nc_errors::{Named, reply_naming};
use nc_names::{Boxed, CauseKind, Many, Memory, Module, Path, QName, Row, Step, Text};
use nc_protocol::{Cause, Request, Sees, Verdict};
use nc_schema::{Deny, Kind, Node, Schema, ValueType};
use nc_tree::Config;
use std::alloc::Global;
use std::process::Abort;
use std::sync::Arc;

// Every path or none: what a session sees, and what a payload names.
#[derive(Clone, Copy)]
struct Paths {
    // Whether it is every path.
    all: bool,
}

impl Sees for Paths {
    ghost seen = { λ paths path. paths.all };

    fn sees(&self, _path: &Path) -> bool {
        self.all
    }
}

impl Named for Paths {
    ghost named = { λ paths path. paths.all };

    fn names(&self, _path: &Path) -> Result<bool, Memory> {
        Ok(self.all)
    }
}

// Every path.
const ALL: Paths = Paths { all: true };

// No path.
const NO: Paths = Paths { all: false };

fn text(rt: &impl Abort, alloc: Global, chars: &str) -> Text {
    Text::from_text(alloc, chars).expect(rt, "memory")
}

fn put_module(rt: &impl Abort, alloc: Global, schema: &mut Schema, name: &str, space: &str) {
    let module = Module {
        name: text(rt, alloc, name),
        space: text(rt, alloc, space),
        revision: Text::new(alloc),
        features: Many::new(alloc),
    };
    assert!(rt; schema.modules().len() < 1000);
    schema.add_module(module).expect(rt, "memory");
}

fn put_type(rt: &impl Abort, alloc: Global, schema: &mut Schema) {
    let lengths = Many::new(alloc);
    assert!(rt; schema.types().len() < 1000);
    schema
        .add_type(ValueType::Chars {
            lengths,
            starless: false,
            patterns: Many::new(alloc),
        })
        .expect(rt, "memory");
}

fn put_node(
    rt: &impl Abort,
    alloc: Global,
    schema: &mut Schema,
    line: (&str, &str, u32, Option<u32>, Kind),
) {
    let (space, name, module, parent, kind) = line;
    let count = schema.nodes();
    assert!(rt; count < 1000);
    if let Some(number) = parent {
        assert!(rt; number < count);
    }
    let node = Node {
        name: QName {
            space: text(rt, alloc, space),
            name: text(rt, alloc, name),
        },
        module,
        parent,
        kind,
        kind_of_value: 0,
        keys: Many::new(alloc),
        uniques: Many::new(alloc),
        mandatory: false,
        defaults: Many::new(alloc),
        least: 0,
        most: None,
        by_user: false,
        cases: Many::new(alloc),
        deny: Deny::Nothing,
    };
    schema.add_node(node).expect(rt, "memory");
}

const TOP: (&str, &str, u32, Option<u32>, Kind) = (
    "urn:ex",
    "top",
    0,
    None,
    Kind::Container { presence: false },
);

const NOTE: (&str, &str, u32, Option<u32>, Kind) = ("urn:more", "note", 1, Some(0), Kind::Leaf);

fn two_modules(rt: &impl Abort, alloc: Global) -> Arc<Schema, Global> {
    let mut schema = Schema::new(alloc);
    put_module(rt, alloc, &mut schema, "ex", "urn:ex");
    put_module(rt, alloc, &mut schema, "more", "urn:more");
    put_type(rt, alloc, &mut schema);
    put_node(rt, alloc, &mut schema, TOP);
    put_node(rt, alloc, &mut schema, NOTE);
    Arc::new(alloc, schema).expect(rt, "memory")
}

// The path of nodes without keys.
fn path(rt: &impl Abort, alloc: Global, nodes: &[u32]) -> Path {
    let mut path = Path {
        steps: Many::new(alloc),
    };
    for node in nodes {
        let step = Step {
            node: *node,
            keys: Many::new(alloc),
        };
        path.steps.push(step).expect(rt, "memory");
    }
    path
}

fn some_path(rt: &impl Abort, alloc: Global, nodes: &[u32]) -> Option<Path> {
    if nodes.is_empty() {
        None
    } else {
        Some(path(rt, alloc, nodes))
    }
}

fn texts(rt: &impl Abort, alloc: Global, words: &[&str]) -> Many<Text> {
    let mut texts = Many::new(alloc);
    for word in words {
        texts.push(text(rt, alloc, word)).expect(rt, "memory");
    }
    texts
}

// A refusal for one cause: its kind, the nodes of its path and its names.
fn refused(
    rt: &impl Abort,
    alloc: Global,
    kind: CauseKind,
    at: &[u32],
    names: &[&str],
) -> Boxed<Verdict> {
    let mut causes = Many::new(alloc);
    let cause = Cause {
        kind,
        path: some_path(rt, alloc, at),
        names: texts(rt, alloc, names),
    };
    causes.push(cause).expect(rt, "memory");
    Boxed::new(alloc, Verdict::Refused { causes }).expect(rt, "memory")
}

// Looks whether a verdict has this reply.
fn has_reply(
    rt: &impl Abort,
    alloc: Global,
    schema: &Arc<Schema, Global>,
    request: &Request,
    verdict: &Verdict,
    sees: Paths,
    names: Paths,
    content: &str,
) {
    let reply = reply_naming(alloc, schema, request, verdict, &sees, &names).expect(rt, "memory");
    let mut found = String::new(alloc);
    put_reply(rt, alloc, &mut found, &reply);
    let mut wanted = String::new(alloc);
    put(
        rt,
        &mut wanted,
        "<rpc-reply xmlns=\"urn:ietf:params:xml:ns:netconf:base:1.0\" message-id=\"1\">",
    );
    put(rt, &mut wanted, content);
    put(rt, &mut wanted, "</rpc-reply>");
    is_same(rt, content, found.as_str(), wanted.as_str());
}

// An error, with what stands after its severity.
fn error(rt: &impl Abort, alloc: Global, layer: &str, tag: &str, more: &str) -> String {
    let mut error = String::new(alloc);
    put(rt, &mut error, "<rpc-error><error-type>");
    put(rt, &mut error, layer);
    put(rt, &mut error, "</error-type><error-tag>");
    put(rt, &mut error, tag);
    put(
        rt,
        &mut error,
        "</error-tag><error-severity>error</error-severity>",
    );
    put(rt, &mut error, more);
    put(rt, &mut error, "</rpc-error>");
    error
}

// Causes of verdicts that no request has yet: the kind, the nodes of the path, the names, and the error's
// type, its tag and what stands after the severity.
const CAUSES: &[(CauseKind, &[u32], &[&str], &str, &str, &str)] = &[
    (
        CauseKind::ExecDenied,
        &[],
        &["rule", "staff", "no-kill"],
        "protocol",
        "access-denied",
        "<error-info><cause xmlns=\"urn:netconfd:cause:1\"><kind>rule</kind>\
         <name>staff</name><name>no-kill</name></cause></error-info>",
    ),
    (
        CauseKind::ExecDenied,
        &[],
        &["default", "exec"],
        "protocol",
        "access-denied",
        "<error-info><cause xmlns=\"urn:netconfd:cause:1\"><kind>default</kind>\
         <name>exec</name></cause></error-info>",
    ),
    (
        CauseKind::LockHeld,
        &[],
        &["candidate", "4"],
        "protocol",
        "lock-denied",
        "<error-info><session-id>4</session-id><cause xmlns=\"urn:netconfd:cause:1\">\
         <kind>global-lock</kind><name>candidate</name><name>4</name></cause>\
         </error-info>",
    ),
    (
        CauseKind::LockModified,
        &[],
        &[],
        "protocol",
        "lock-denied",
        "<error-info><session-id>0</session-id><cause xmlns=\"urn:netconfd:cause:1\">\
         <kind>candidate-modified</kind></cause></error-info>",
    ),
    (
        CauseKind::LockPending,
        &[],
        &["7"],
        "protocol",
        "lock-denied",
        "<error-info><session-id>7</session-id><cause xmlns=\"urn:netconfd:cause:1\">\
         <kind>confirmed-commit</kind><name>7</name></cause></error-info>",
    ),
    (
        CauseKind::LockPartial,
        &[],
        &["3", "9"],
        "protocol",
        "lock-denied",
        "<error-info><session-id>9</session-id><cause xmlns=\"urn:netconfd:cause:1\">\
         <kind>partial-lock</kind><name>3</name><name>9</name></cause></error-info>",
    ),
    (
        CauseKind::NotHeld,
        &[],
        &["running"],
        "protocol",
        "operation-failed",
        "<error-info><cause xmlns=\"urn:netconfd:cause:1\"><kind>no-lock</kind>\
         <name>running</name></cause></error-info>",
    ),
    (
        CauseKind::InUseGlobal,
        &[],
        &["running", "4"],
        "protocol",
        "in-use",
        "<error-info><cause xmlns=\"urn:netconfd:cause:1\"><kind>global-lock</kind>\
         <name>running</name><name>4</name></cause></error-info>",
    ),
    (
        CauseKind::InUsePartial,
        &[],
        &["3", "9"],
        "protocol",
        "in-use",
        "<error-app-tag>locked</error-app-tag><error-info>\
         <cause xmlns=\"urn:netconfd:cause:1\"><kind>partial-lock</kind><name>3</name>\
         <name>9</name></cause></error-info>",
    ),
    (
        CauseKind::InUsePending,
        &[],
        &["7"],
        "protocol",
        "in-use",
        "<error-info><cause xmlns=\"urn:netconfd:cause:1\">\
         <kind>confirmed-commit</kind><name>7</name></cause></error-info>",
    ),
    (
        CauseKind::NoPending,
        &[],
        &[],
        "protocol",
        "operation-failed",
        "<error-info><cause xmlns=\"urn:netconfd:cause:1\">\
         <kind>no-confirmed-commit</kind></cause></error-info>",
    ),
    (
        CauseKind::NotLiveTarget,
        &[],
        &[],
        "protocol",
        "invalid-value",
        "<error-info><cause xmlns=\"urn:netconfd:cause:1\"><kind>session-id</kind>\
         </cause></error-info>",
    ),
    (
        CauseKind::BadSelect,
        &[],
        &[],
        "application",
        "invalid-value",
        "<error-app-tag>invalid-lock-specification</error-app-tag>",
    ),
    (
        CauseKind::NoMatch,
        &[],
        &[],
        "application",
        "operation-failed",
        "<error-app-tag>no-matches</error-app-tag>",
    ),
    (
        CauseKind::Limit,
        &[],
        &["record"],
        "application",
        "resource-denied",
        "<error-info><cause xmlns=\"urn:netconfd:cause:1\"><kind>limit</kind>\
         <name>record</name></cause></error-info>",
    ),
    (
        CauseKind::DataDenied,
        &[0, 1],
        &["rule", "staff", "no-note"],
        "application",
        "access-denied",
        "<error-path xmlns:ex=\"urn:ex\" xmlns:more=\"urn:more\">/ex:top/more:note</error-path>\
         <error-info><cause xmlns=\"urn:netconfd:cause:1\"><kind>rule</kind>\
         <name>staff</name><name>no-note</name></cause></error-info>",
    ),
    (
        CauseKind::DataDenied,
        &[0, 1],
        &["deny-write"],
        "application",
        "access-denied",
        "<error-path xmlns:ex=\"urn:ex\" xmlns:more=\"urn:more\">/ex:top/more:note</error-path>\
         <error-info><cause xmlns=\"urn:netconfd:cause:1\"><kind>deny-write</kind>\
         </cause></error-info>",
    ),
];

#[test]
fn causes_to_come_have_their_errors(rt: HostRuntime) {
    let alloc = rt.alloc();
    let schema = two_modules(&rt, alloc);
    let request = asked(&rt, alloc, "<get/>");
    for (kind, at, names, layer, tag, more) in CAUSES {
        let verdict = refused(&rt, alloc, *kind, at, names);
        let content = error(&rt, alloc, layer, tag, more);
        has_reply(
            &rt,
            alloc,
            &schema,
            request.get(),
            verdict.get(),
            ALL,
            ALL,
            content.as_str(),
        );
    }
}

#[test]
fn an_outstanding_commit_has_its_tag_at_a_partial_lock(rt: HostRuntime) {
    let alloc = rt.alloc();
    let schema = two_modules(&rt, alloc);
    let request = asked(
        &rt,
        alloc,
        "<p:partial-lock><p:select>/</p:select></p:partial-lock>",
    );
    let verdict = refused(&rt, alloc, CauseKind::LockPending, &[], &["7"]);
    let content = "<rpc-error><error-type>protocol</error-type><error-tag>lock-denied</error-tag>\
         <error-severity>error</error-severity><error-app-tag>outstanding-confirmed-commit\
         </error-app-tag><error-info><session-id>7</session-id><cause xmlns=\"urn:netconfd:cause:1\">\
         <kind>confirmed-commit</kind><name>7</name></cause></error-info></rpc-error>";
    has_reply(
        &rt,
        alloc,
        &schema,
        request.get(),
        verdict.get(),
        ALL,
        ALL,
        content,
    );
}

const NAMED: &str =
    "<rpc-error><error-type>application</error-type><error-tag>access-denied</error-tag>\
     <error-severity>error</error-severity>\
     <error-path xmlns:ex=\"urn:ex\" xmlns:more=\"urn:more\">/ex:top/more:note</error-path><error-info>\
     <cause xmlns=\"urn:netconfd:cause:1\"><kind>rule</kind></cause></error-info></rpc-error>";

const SEEN: &str =
    "<rpc-error><error-type>application</error-type><error-tag>access-denied</error-tag>\
     <error-severity>error</error-severity>\
     <error-path xmlns:ex=\"urn:ex\" xmlns:more=\"urn:more\">/ex:top/more:note</error-path><error-info>\
     <cause xmlns=\"urn:netconfd:cause:1\"><kind>rule</kind><name>staff</name><name>no-note</name>\
     </cause></error-info></rpc-error>";

const HIDDEN: &str =
    "<rpc-error><error-type>application</error-type><error-tag>access-denied</error-tag>\
     <error-severity>error</error-severity><error-info><cause xmlns=\"urn:netconfd:cause:1\"><kind>rule\
     </kind></cause></error-info></rpc-error>";

// What the session sees and what the payload names: a path needs one of them, a rule's names the first.
const SIGHTS: &[(Paths, Paths, &str)] = &[
    (ALL, ALL, SEEN),
    (ALL, NO, SEEN),
    (NO, ALL, NAMED),
    (NO, NO, HIDDEN),
];

#[test]
fn what_is_not_seen_is_left_out(rt: HostRuntime) {
    let alloc = rt.alloc();
    let schema = two_modules(&rt, alloc);
    let request = asked(&rt, alloc, "<get/>");
    let verdict = refused(
        &rt,
        alloc,
        CauseKind::DataDenied,
        &[0, 1],
        &["rule", "staff", "no-note"],
    );
    for (sees, names, content) in SIGHTS {
        has_reply(
            &rt,
            alloc,
            &schema,
            request.get(),
            verdict.get(),
            *sees,
            *names,
            content,
        );
    }
}

// A partial lock of top and its note, and what it selects there.
fn locked(rt: &impl Abort, alloc: Global) -> Boxed<Verdict> {
    let mut nodes = Many::new(alloc);
    nodes.push(path(rt, alloc, &[0])).expect(rt, "memory");
    nodes.push(path(rt, alloc, &[0, 1])).expect(rt, "memory");
    Boxed::new(alloc, Verdict::Locked { lock: 127, nodes }).expect(rt, "memory")
}

fn selected(rt: &impl Abort, alloc: Global) -> Boxed<Verdict> {
    let mut rows = Many::new(alloc);
    let row = Row {
        path: path(rt, alloc, &[0, 1]),
        value: Some(text(rt, alloc, "ex:fast")),
    };
    rows.push(row).expect(rt, "memory");
    let rows = Config::from_rows(rows).expect(rt, "memory");
    Boxed::new(alloc, Verdict::Selected { rows }).expect(rt, "memory")
}

#[test]
fn nodes_of_two_modules_are_named_and_written(rt: HostRuntime) {
    let alloc = rt.alloc();
    let schema = two_modules(&rt, alloc);
    let request = asked(&rt, alloc, "<get/>");
    has_reply(
        &rt,
        alloc,
        &schema,
        request.get(),
        locked(&rt, alloc).get(),
        ALL,
        NO,
        "<lock-id xmlns=\"urn:ietf:params:xml:ns:netconf:partial-lock:1.0\">127</lock-id>\
         <locked-node xmlns=\"urn:ietf:params:xml:ns:netconf:partial-lock:1.0\" \
         xmlns:ex=\"urn:ex\">/ex:top</locked-node>\
         <locked-node xmlns=\"urn:ietf:params:xml:ns:netconf:partial-lock:1.0\" xmlns:ex=\"urn:ex\" \
         xmlns:more=\"urn:more\">/ex:top/more:note</locked-node>",
    );
    has_reply(
        &rt,
        alloc,
        &schema,
        request.get(),
        selected(&rt, alloc).get(),
        ALL,
        NO,
        "<data><top xmlns=\"urn:ex\"><note xmlns=\"urn:more\">ex:fast</note></top></data>",
    );
}
