//! Publishing pages one after another.

ghost use Rattle.scene_hub.specs.Hub.{IsSameEditorHub};

use crate::pages::Page;
use scene_hub::Editor;
use std::sync::Wait;

/// Publishes the page of the next number. Returns the number, or nothing where there is none after the
/// last one, or memory runs out.
pub fn publish_next<R: Wait>(rt: &R, editor: &mut Editor<Page>) -> Option<u64>
    ensures { IsSameEditorHub editor.old editor.new }
{
    let number = editor.number().checked_add(1)?;
    let receipt = editor.publish(rt, Page { number }).ok()?;
    Some(receipt.number())
}
