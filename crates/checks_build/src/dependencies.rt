//! What is found in a text, and the first import or export that has no form.
use mt_chars::part;
use mt_deps::{DepFault, DepKind, DepList, deps};
use mt_tokens::{MAX_TEXT_BYTES, tokens};
use std::alloc::Global;

/// What is found in a text; none where it is refused.
fn read(alloc: Global, text: &str) -> Option<DepList> {
    if text.len() > MAX_TEXT_BYTES {
        return None;
    }
    let Ok(found) = tokens(alloc, text) else {
        return None;
    };
    deps(alloc, text, &found).ok()
}

/// The fault of a text whose tokens have none.
fn fault(alloc: Global, text: &str) -> Option<DepFault> {
    if text.len() > MAX_TEXT_BYTES {
        return None;
    }
    let Ok(found) = tokens(alloc, text) else {
        return None;
    };
    deps(alloc, text, &found).err()
}

/// Whether a text has these dependencies, each with its kind and place.
fn has_deps(alloc: Global, text: &str, expected: &[(&str, DepKind, u32)]) -> bool {
    let Some(list) = read(alloc, text) else {
        return false;
    };
    if list.deps().len() != expected.len() {
        return false;
    }
    for i in 0..expected.len() {
        let (name, kind, place) = expected[i];
        match list.deps().get(i) {
            Some(dep) if dep.name.as_str() == name && dep.kind == kind && dep.place == place => {}
            _ => return false,
        }
    }
    true
}

/// Whether these ranges of a text are replaced, each by its text.
fn has_uses(alloc: Global, text: &str, expected: &[(u32, u32, &str)]) -> bool {
    let Some(list) = read(alloc, text) else {
        return false;
    };
    if list.uses().len() != expected.len() {
        return false;
    }
    for i in 0..expected.len() {
        let (start, end, new) = expected[i];
        match list.uses().get(i) {
            Some(one) if one.start == start && one.end == end && one.text.as_str() == new => {}
            _ => return false,
        }
    }
    true
}

/// Whether a text exports these names, each with its name in the text.
fn has_marks(alloc: Global, text: &str, expected: &[(&str, &str)]) -> bool {
    let Some(list) = read(alloc, text) else {
        return false;
    };
    if list.marks().len() != expected.len() {
        return false;
    }
    for i in 0..expected.len() {
        let (name, local) = expected[i];
        match list.marks().get(i) {
            Some(mark) if mark.name.as_str() == name && mark.local.as_str() == local => {}
            _ => return false,
        }
    }
    true
}

/// Whether a text has so many dynamic calls and no dependency.
fn is_dynamic(alloc: Global, text: &str, expected: u32) -> bool {
    match read(alloc, text) {
        Some(list) => list.dynamic() == expected && list.deps().is_empty(),
        None => false,
    }
}

/// Whether a text has an `export`; none where it is refused.
fn exports(alloc: Global, text: &str) -> Option<bool> {
    match read(alloc, text) {
        Some(list) => Some(list.exporting()),
        None => None,
    }
}

/// Whether a text has nothing of all that.
fn is_plain(alloc: Global, text: &str) -> bool {
    match read(alloc, text) {
        Some(list) => {
            list.deps().is_empty()
                && list.uses().is_empty()
                && list.marks().is_empty()
                && !list.exporting()
                && list.dynamic() == 0
        }
        None => false,
    }
}

fn has_import_fault(alloc: Global, text: &str, place: u32) -> bool {
    fault(alloc, text) == Some(DepFault::ImportForm { place })
}

fn has_export_fault(alloc: Global, text: &str, place: u32) -> bool {
    fault(alloc, text) == Some(DepFault::ExportForm { place })
}

#[test]
fn a_name_is_a_dependency_once_for_each_kind(rt: HostRuntime) {
    let text = r#"require("a");import("a");import "a";require("a")"#;
    assert!(rt;
        has_deps(
            rt.alloc(),
            text,
            &[
                ("a", DepKind::Require, 8),
                ("a", DepKind::ImportCall, 20),
                ("a", DepKind::Import, 32)
            ]
        )
    );
    assert!(rt;
        has_uses(
            rt.alloc(),
            text,
            &[
                (8, 11, "dependencyMap[0]"),
                (13, 24, "Promise.resolve(dependencyMap[1]).then(importAll)"),
                (25, 36, "require(dependencyMap[2]);"),
                (44, 47, "dependencyMap[0]")
            ]
        )
    );
}

#[test]
fn a_call_may_end_with_a_comma(rt: HostRuntime) {
    assert!(rt;
        has_deps(
            rt.alloc(),
            r#"require("a",)"#,
            &[("a", DepKind::Require, 8)]
        )
    );
    assert!(rt;
        has_uses(
            rt.alloc(),
            r#"import("a", )"#,
            &[(0, 13, "Promise.resolve(dependencyMap[0]).then(importAll)")]
        )
    );
}

#[test]
fn a_name_is_what_its_string_says(rt: HostRuntime) {
    assert!(rt;
        has_deps(
            rt.alloc(),
            r#"require("\x61")"#,
            &[("a", DepKind::Require, 8)]
        )
    );
    assert!(rt;
        has_uses(
            rt.alloc(),
            r#"require("\x61")"#,
            &[(8, 14, "dependencyMap[0]")]
        )
    );
    assert!(rt; is_dynamic(rt.alloc(), r#"require("\1")"#, 1));
    assert!(rt; has_import_fault(rt.alloc(), r#"import "\1""#, 0));
}

#[test]
fn other_calls_are_dynamic(rt: HostRuntime) {
    assert!(rt; is_dynamic(rt.alloc(), "require(x);", 1));
    assert!(rt; is_dynamic(rt.alloc(), "require(x); import(y, z); require()", 3));
    assert!(rt; is_dynamic(rt.alloc(), "function require(z) {}", 0));
    assert!(rt; is_plain(rt.alloc(), "a.require(q); a?.import(q); require"));
    assert!(rt;
        has_deps(
            rt.alloc(),
            r#"function require("a")"#,
            &[("a", DepKind::Require, 17)]
        )
    );
}

#[test]
fn a_function_with_a_parameter_require_shields(rt: HostRuntime) {
    let text = r#"function f(require) { require("a") } require("b")"#;
    assert!(rt; has_deps(rt.alloc(), text, &[("b", DepKind::Require, 45)]));
    assert!(rt; has_uses(rt.alloc(), text, &[(45, 48, "dependencyMap[0]")]));
    assert!(rt; is_plain(rt.alloc(), r#"function f(a=require("x"),require){}"#));
    assert!(rt; is_plain(rt.alloc(), "function * (b, require = 1) { require(x) }"));
}

#[test]
fn other_functions_do_not_shield(rt: HostRuntime) {
    assert!(rt;
        has_deps(
            rt.alloc(),
            r#"function f(a=require("x"),require);"#,
            &[("x", DepKind::Require, 21)]
        )
    );
    assert!(rt;
        has_deps(
            rt.alloc(),
            r#"class A { m(require) { require("a") } }"#,
            &[("a", DepKind::Require, 31)]
        )
    );
    assert!(rt; is_dynamic(rt.alloc(), "function f({require}) { require(x) }", 1));
}

#[test]
fn shields_end_with_their_bodies(rt: HostRuntime) {
    let text = r#"function f(require){function g(require){require("a")}require("b")}require("c")"#;
    assert!(rt; has_deps(rt.alloc(), text, &[("c", DepKind::Require, 74)]));
    let text = r#"function f(require){`${ require("a") }`}require("b")"#;
    assert!(rt; has_deps(rt.alloc(), text, &[("b", DepKind::Require, 48)]));
}

#[test]
fn an_import_takes_by_its_form(rt: HostRuntime) {
    assert!(rt;
        has_uses(
            rt.alloc(),
            r#"import "m""#,
            &[(0, 10, "require(dependencyMap[0]);")]
        )
    );
    assert!(rt;
        has_uses(
            rt.alloc(),
            r#"import d from "m""#,
            &[(0, 17, "var d = importDefault(dependencyMap[0]);")]
        )
    );
    assert!(rt;
        has_uses(
            rt.alloc(),
            r#"import * as n from "m";"#,
            &[(0, 23, "var n = importAll(dependencyMap[0]);")]
        )
    );
    assert!(rt;
        has_uses(
            rt.alloc(),
            r#"import {} from "m""#,
            &[(0, 18, "require(dependencyMap[0]);")]
        )
    );
}

#[test]
fn an_import_takes_items_with_blanks_between(rt: HostRuntime) {
    let new =
        "var d = importDefault(dependencyMap[0]); var b = require(dependencyMap[0]).b; var e = require(dependencyMap[0]).c;";
    assert!(rt;
        has_uses(
            rt.alloc(),
            r#"import {default as d, b, c as e,} from "m""#,
            &[(0, 42, new)]
        )
    );
    assert!(rt;
        has_uses(
            rt.alloc(),
            r#"import d, * as n from "m""#,
            &[(
                0,
                25,
                "var d = importDefault(dependencyMap[0]); var n = importAll(dependencyMap[0]);"
            )]
        )
    );
}

#[test]
fn an_export_of_another_module(rt: HostRuntime) {
    assert!(rt;
        has_uses(
            rt.alloc(),
            r#"export {a as b} from "m";"#,
            &[(0, 25, "exports.b = require(dependencyMap[0]).a;")]
        )
    );
    assert!(rt;
        has_uses(
            rt.alloc(),
            r#"export * from "m""#,
            &[(0, 17, "__exportAll(exports, require(dependencyMap[0]));")]
        )
    );
    assert!(rt;
        has_uses(
            rt.alloc(),
            r#"export * as n from "m""#,
            &[(0, 22, "exports.n = importAll(dependencyMap[0]);")]
        )
    );
    assert!(rt;
        has_deps(
            rt.alloc(),
            r#"export {a as b} from "m";"#,
            &[("m", DepKind::Import, 21)]
        )
    );
}

#[test]
fn an_export_of_a_default_or_of_nothing(rt: HostRuntime) {
    assert!(rt;
        has_uses(
            rt.alloc(),
            r#"export {default} from "m""#,
            &[(0, 25, "exports.default = importDefault(dependencyMap[0]);")]
        )
    );
    assert!(rt;
        has_uses(
            rt.alloc(),
            r#"export {} from "m""#,
            &[(0, 18, "require(dependencyMap[0]);")]
        )
    );
    assert!(rt; has_marks(rt.alloc(), r#"export {a as b} from "m";"#, &[]));
}

#[test]
fn an_export_of_a_list_marks_its_items(rt: HostRuntime) {
    assert!(rt; has_marks(rt.alloc(), "export {a as b, c};", &[("b", "a"), ("c", "c")]));
    assert!(rt; has_uses(rt.alloc(), "export {a as b}", &[(0, 15, "")]));
    assert!(rt; exports(rt.alloc(), "export {}") == Some(true));
    assert!(rt; exports(rt.alloc(), r#"import "m""#) == Some(false));
}

#[test]
fn an_export_of_a_default(rt: HostRuntime) {
    assert!(rt;
        has_uses(
            rt.alloc(),
            "export default async function",
            &[(0, 14, "exports.default =")]
        )
    );
    assert!(rt;
        has_marks(
            rt.alloc(),
            "export default async function* f(){}",
            &[("default", "f")]
        )
    );
    assert!(rt; has_uses(rt.alloc(), "export default class C {}", &[(0, 14, "")]));
    assert!(rt; has_marks(rt.alloc(), "export default class extends A {}", &[]));
}

#[test]
fn an_import_and_a_default(rt: HostRuntime) {
    let text = "import App, { a as b } from \"./App\";\nexport default function Main() {}\n";
    let new = "var App = importDefault(dependencyMap[0]); var b = require(dependencyMap[0]).a;";
    assert!(rt; has_deps(rt.alloc(), text, &[("./App", DepKind::Import, 28)]));
    assert!(rt; has_uses(rt.alloc(), text, &[(0, 36, new), (37, 51, "")]));
    assert!(rt; has_marks(rt.alloc(), text, &[("default", "Main")]));
}

#[test]
fn an_export_marks_what_it_declares(rt: HostRuntime) {
    assert!(rt; has_uses(rt.alloc(), "export var a = f(1,2), b", &[(0, 6, "")]));
    assert!(rt;
        has_marks(
            rt.alloc(),
            "export var a = f(1,2), b",
            &[("a", "a"), ("b", "b")]
        )
    );
    assert!(rt;
        has_marks(
            rt.alloc(),
            "export const a = {b: 1, c}, d = `${1, e}`; f, g",
            &[("a", "a"), ("d", "d")]
        )
    );
    assert!(rt; has_marks(rt.alloc(), "export class C extends D {}", &[("C", "C")]));
    assert!(rt; has_marks(rt.alloc(), "export async function* g() {}", &[("g", "g")]));
}

#[test]
fn a_word_that_begins_a_statement_ends_the_names(rt: HostRuntime) {
    assert!(rt;
        has_marks(
            rt.alloc(),
            "export let a, b\nexport let c",
            &[("a", "a"), ("b", "b"), ("c", "c")]
        )
    );
    assert!(rt; has_marks(rt.alloc(), "export var let, b", &[("let", "let")]));
    assert!(rt; has_marks(rt.alloc(), "export var a, if, b", &[("a", "a")]));
    assert!(rt;
        has_marks(
            rt.alloc(),
            "export var a = x.if, b",
            &[("a", "a"), ("b", "b")]
        )
    );
    assert!(rt;
        has_marks(
            rt.alloc(),
            "export var a = import(x), b",
            &[("a", "a"), ("b", "b")]
        )
    );
}

#[test]
fn statements_are_read_at_depth_0_alone(rt: HostRuntime) {
    assert!(rt; is_plain(rt.alloc(), r#"{ import "a" } (export)"#));
    assert!(rt; is_plain(rt.alloc(), "`${ export }`"));
    assert!(rt; is_plain(rt.alloc(), "x = import.meta.url; a.export; a?.import"));
    assert!(rt; has_export_fault(rt.alloc(), "`${ 1 }` export", 9));
}

#[test]
fn an_import_without_a_form_is_refused(rt: HostRuntime) {
    assert!(rt; has_import_fault(rt.alloc(), "import 7;", 0));
    assert!(rt; has_import_fault(rt.alloc(), r#"x; import {,} from "m""#, 3));
    assert!(rt; has_import_fault(rt.alloc(), r#"import {a b} from "m""#, 0));
    assert!(rt; has_import_fault(rt.alloc(), r#"import a, from "m""#, 0));
    assert!(rt; has_import_fault(rt.alloc(), "import x", 0));
}

#[test]
fn an_export_without_a_form_is_refused(rt: HostRuntime) {
    assert!(rt; has_export_fault(rt.alloc(), r#"import export from "x""#, 7));
    assert!(rt; has_export_fault(rt.alloc(), "export {,}", 0));
    assert!(rt; has_export_fault(rt.alloc(), "x; export 1; import 2", 3));
    assert!(rt; has_export_fault(rt.alloc(), "export class {}", 0));
    assert!(rt; has_export_fault(rt.alloc(), "export {a} from m", 0));
}

#[test]
fn a_part_ends_with_its_bytes(rt: HostRuntime) {
    assert!(rt; part(b"abc", 1, 9) == b"bc".as_slice());
    assert!(rt; part(b"abc", 2, 1).is_empty() && part(b"abc", 7, 9).is_empty());
}
