// Rows about the bytes of requests.
ghost use Rattle.std.specs.Prelude.{IfOk};
ghost use Rattle.goal_types.specs.Goals.{HasOwnSlots};

use crate::builtin::request;
use goal_types::{GoalRequest, OwnBytes, Slot, SourceFile, request_bytes};
use mvn_base::Setting;
use mvn_shared::{Bytes, List, Mem, Text};
use std::alloc::Global;

// A setting without children.
fn setting(alloc: Global, name: &str, text: &str) -> Mem<Setting> {
    let name = Text::from_str(alloc, name)?;
    let text = Text::from_str(alloc, text)?;
    Ok(Setting {
        name,
        text,
        children: List::new(alloc),
    })
}

fn push_setting(alloc: Global, list: &mut List<Setting>, name: &str, text: &str) -> Mem<()> {
    list.push(setting(alloc, name, text)?)
}

// A setting with a child.
fn nested(alloc: Global) -> Mem<Setting> {
    let mut setting = setting(alloc, "config", "")?;
    push_setting(alloc, &mut setting.children, "fork", "no \"fork\"")?;
    Ok(setting)
}

fn push_nested(alloc: Global, list: &mut List<Setting>) -> Mem<()> {
    list.push(nested(alloc)?)
}

// One more source.
fn push_source(alloc: Global, list: &mut List<SourceFile>) -> Mem<()> {
    let path = Text::from_str(alloc, "src/A.java")?;
    let bytes = Bytes::from_slice(alloc, "class A {}\n".as_bytes())?;
    list.push(SourceFile { path, bytes })
}

// An output.
fn outputs(alloc: Global) -> Mem<List<OwnBytes>>
    ensures { IfOk result (λ own. HasOwnSlots own) }
{
    let bytes = Bytes::from_slice(alloc, "out".as_bytes())?;
    let mut own = List::new(alloc);
    own.push(OwnBytes {
        slot: Slot::TestClasses,
        bytes,
    })?;
    Ok(own)
}

// The bytes of a request with an item more in each list but that of outputs, which has one then.
fn filled_bytes(alloc: Global, request: &mut GoalRequest) -> Mem<Bytes> {
    push_nested(alloc, &mut request.call.configuration)?;
    push_source(alloc, &mut request.sources)?;
    request.own = outputs(alloc)?;
    request_bytes(alloc, request)
}

// The bytes of a request with an item in each list.
fn full_bytes(alloc: Global) -> Mem<Bytes> {
    let mut request = request(alloc, Slot::Nowhere)?;
    filled_bytes(alloc, &mut request)
}

// The bytes of a request without items.
fn bare_bytes(alloc: Global) -> Mem<Bytes> {
    let request = request(alloc, Slot::Nowhere)?;
    request_bytes(alloc, &request)
}

/// The bytes of a request with an item in each list, or with none.
pub(crate) fn told(alloc: Global, kind: &str) -> Mem<Bytes> {
    match kind {
        "full" => full_bytes(alloc),
        _ => bare_bytes(alloc),
    }
}
