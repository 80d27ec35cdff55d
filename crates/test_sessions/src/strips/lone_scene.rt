//! A scene of one buffer and no node.

use model_operations::IntOp;
use render_workers::Scene;

#[test]
fn a_scene_shows_what_it_was_made_of(rt: HostRuntime) {
    let alloc = rt.alloc();
    let scene: Scene<IntOp> = Scene::new(7, Vec::new(alloc), Vec::new(alloc));
    assert!(rt; scene.number() == 7 && scene.nodes().len() == 0 && scene.buffers().len() == 0);
}
