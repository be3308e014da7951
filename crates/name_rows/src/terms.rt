// Names, phases, types and settings.
use mvn_base::{Setting, TypeRule, handler, phase_of, valid_group, valid_name, valid_version};
use mvn_shared::{List, Mem, Text};
use row_fields::word;
use std::alloc::Global;

// What a text may name.
fn name(text: &Text) -> &'static str {
    let bytes = text.as_bytes();
    match (valid_name(bytes), valid_group(bytes)) {
        (true, true) => "name group",
        (true, false) => "name",
        (false, true) => "group",
        (false, false) => "none",
    }
}

fn version(text: &Text) -> &'static str {
    if valid_version(text.as_bytes()) {
        "valid"
    } else {
        "not valid"
    }
}

fn phase(alloc: Global, text: &Text) -> Mem<String> {
    match phase_of(text.as_bytes()) {
        Some(phase) => {
            let number = phase.number();
            Ok(format!(in alloc; "{number} {phase}")?)
        }
        None => word(alloc, "none"),
    }
}

fn spelled_rule(alloc: Global, rule: &TypeRule) -> Mem<String> {
    let extension = &rule.extension;
    let classifier = &rule.classifier;
    let classpath = if rule.on_classpath { "on" } else { "off" };
    Ok(format!(in alloc;
        "extension {extension} classifier ({classifier}) {classpath} the classpath"
    )?)
}

fn kind(alloc: Global, kind: &Text) -> Mem<String> {
    let rule = handler(alloc, kind)?;
    spelled_rule(alloc, &rule)
}

// A setting of this name, with a text.
fn setting(alloc: Global, name: &Text, children: List<Setting>) -> Mem<Setting> {
    let name = name.clone()?;
    let text = Text::from_str(alloc, "text")?;
    Ok(Setting {
        name,
        text,
        children,
    })
}

fn push_setting(shown: &mut String, setting: &Setting) -> Mem<()> {
    shown.push_str(setting.name.as_str())?;
    shown.push_str("=")?;
    shown.push_str(setting.text.as_str())?;
    Ok(())
}

// The name and the text of a setting, and those of its children.
fn shown(alloc: Global, setting: &Setting) -> Mem<String> {
    let mut shown = String::new(alloc);
    push_setting(&mut shown, setting)?;
    for child in setting.children.as_slice() {
        shown.push_str(" ")?;
        push_setting(&mut shown, child)?;
    }
    Ok(shown)
}

// Settings of these names, each with a text and no children.
fn settings(alloc: Global, names: &[Text]) -> Mem<List<Setting>> {
    let mut list = List::new(alloc);
    for name in names {
        list.push(setting(alloc, name, List::new(alloc))?)?;
    }
    Ok(list)
}

fn shown_copy(alloc: Global, setting: &Setting) -> Mem<String> {
    let copy = setting.clone()?;
    shown(alloc, &copy)
}

// A copy of a setting with children of these names.
fn copied(alloc: Global, name: &Text, names: &[Text]) -> Mem<String> {
    let children = settings(alloc, names)?;
    let setting = setting(alloc, name, children)?;
    shown_copy(alloc, &setting)
}

/// What is told of a row of names.
pub(crate) fn told(alloc: Global, row: &str, texts: &[Text]) -> Mem<String> {
    match (row, texts) {
        ("name", [text]) => word(alloc, name(text)),
        ("version", [text]) => word(alloc, version(text)),
        ("phase", [text]) => phase(alloc, text),
        ("type", [text]) => kind(alloc, text),
        ("setting", [name, names @ ..]) => copied(alloc, name, names),
        _ => word(alloc, "no such row"),
    }
}
