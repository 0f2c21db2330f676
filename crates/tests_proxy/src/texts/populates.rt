//! Populate files with several objects. Those with one, and their faults, are in `tests/rows`.
use crate::comparing::assert_equal_at;
use std::process::Abort;
use tox_config::{ProxyDef, read_populate};

/// The texts of a proxy, and whether it is enabled.
type Row = (&'static str, &'static str, &'static str, bool);

/// Files with the proxies that they give, in order. A later object of a name has the place of the first one.
const FILES: &[(&str, &[Row])] = &[
    (
        r#"[{"name":"b","upstream":"h:1"},{"name":"a","listen":"[::]:18080","upstream":"h:2"}]"#,
        &[
            ("b", "localhost:0", "h:1", true),
            ("a", "[::]:18080", "h:2", true),
        ],
    ),
    (
        r#"[{"name":"a","listen":":1","upstream":"h:1"},{"name":"a","upstream":"h:2","enabled":false}]"#,
        &[("a", "localhost:0", "h:2", false)],
    ),
    (
        r#"[{"name":"c","upstream":"h:1"},{"name":"a","upstream":"h:2","enabled":false},{"name":"b","upstream":"h:3"}]"#,
        &[
            ("c", "localhost:0", "h:1", true),
            ("a", "localhost:0", "h:2", false),
            ("b", "localhost:0", "h:3", true),
        ],
    ),
    (
        r#"[{"name":"a","listen":"[::]:18080","upstream":"h:1"},{"name":"b","upstream":"h:2"},{"name":"a","upstream":"h:3","enabled":false}]"#,
        &[
            ("a", "localhost:0", "h:3", false),
            ("b", "localhost:0", "h:2", true),
        ],
    ),
];

/// Compares a proxy with its row.
fn compare(rt: &impl Abort, def: &ProxyDef, row: &Row, file: &str) {
    let read = (
        def.name.as_str(),
        def.listen.as_str(),
        def.upstream.as_str(),
        def.enabled,
    );
    assert_equal_at(rt, &read, row, &file);
}

/// Compares what a file gives with its rows.
fn compare_all(rt: &(impl Abort + AllocGlobal), file: &str, rows: &[Row]) {
    let proxies = read_populate(rt.alloc(), file.as_bytes()).expect(rt, "a populate file");
    assert_equal_at(rt, &proxies.len(), &rows.len(), &file);
    for (def, row) in proxies.iter().zip(rows) {
        compare(rt, def, row, file);
    }
}

#[test]
fn several_objects_give_their_proxies_in_order(rt: HostRuntime) {
    for (file, rows) in FILES {
        compare_all(&rt, file, rows);
    }
}
