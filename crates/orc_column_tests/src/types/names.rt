//! Names in the texts of schemas, worked out by hand: the text of a name, and the place where a name is wrong.
use super::*;
use serde_json::Value as Json;

/// Names as strings of JSON, and their texts.
static NAMES: &str = r#""n_1" n_1
"" ``
"`" ````
"\\" `\\`
"\u001b[2J" `\u001b[2J`
"\u0000" `\u0000`
"\u001f" `\u001f`
"\u007f" `\u007f`
"\u0080" `\u0080`
"\u0085" `\u0085`
"\u009f" `\u009f`
"\n" `\u000a`
"n:int>\nrows" `n:int>\u000arows`
"é" `é`
"日本" `日本`
"n:int>" `n:int>`
"\u0020" ` `
"a`\\b" `a``\\b`
"\\u0041" `\\u0041`"#;

/// Whether a schema has one field, which has this name.
fn is_named(schema: &Schema, name: &str) -> bool {
    match schema.tree() {
        Tree::Struct(fields, _) => fields.len() == 1 && fields[0].name.as_str() == name,
        _ => false,
    }
}

/// Whether the schema of one field of this name is read from its text, and has this text.
fn name_has_text(alloc: Global, name: &str, text: &str) -> Result<bool, TypeFault> {
    let whole = format!(in alloc; "struct<{text}:int>")?;
    let schema = Schema::parse(alloc, whole.as_str())?;
    let again = schema.text(alloc)?;
    Ok(is_named(&schema, name) && again.as_str() == whole.as_str())
}

/// Whether the name of the line has its text.
fn line_has_text(alloc: Global, line: &str) -> Result<bool, TypeFault> {
    let (name, text) = cut(line);
    match Json::from_str(alloc, name) {
        Ok(Json::String(name)) => name_has_text(alloc, name.as_str(), text),
        _ => Err(TypeFault::OutOfMemory),
    }
}

#[test]
fn names_have_texts(rt: HostRuntime) {
    let alloc = rt.alloc();
    for line in NAMES.lines() {
        demand_of(&rt, line_has_text(alloc, line), &line);
    }
}

/// Texts that are none of a schema, behind the place of the name that is wrong.
static WRONG: &str = r#"7 struct<:int>
7 struct<`n`:int>
13 struct<a:int,`n`:int>
7 struct<`\u001B`:int>
7 struct<`\u0041`:int>
7 struct<`\u00a0`:int>
7 struct<`\u001`:int>
7 struct<`\`:int>
7 struct<`a\n`:int>
7 struct<`a b:int>
7 struct<`a``:int>
7 struct<`a`b`:int>
7 struct<`a b``:int>
7 struct<a b:int>
7 struct<é:int>"#;

/// Whether the text of the line is refused at its place.
fn line_is_wrong(alloc: Global, line: &str) -> Result<bool, TypeFault> {
    let (place, text) = cut(line);
    match Schema::parse(alloc, text) {
        Ok(_) => Ok(false),
        Err(TypeFault::OutOfMemory) => Err(TypeFault::OutOfMemory),
        Err(fault) => Ok(fault == TypeFault::BadText(place.parse::<usize>().unwrap_or(usize::MAX))),
    }
}

#[test]
fn wrong_names_are_refused(rt: HostRuntime) {
    let alloc = rt.alloc();
    for line in WRONG.lines() {
        demand_of(&rt, line_is_wrong(alloc, line), &line);
    }
}
