//! Look-ups outside do not see what is inside.

ghost use Rattle.p9_inside.specs.Lookups.{ServerKeepsNode, KeepsNode, ServerKeepsDirTest};
ghost use Rattle.p9_inside.specs.Lookups.{KeepsDirTest, ServerKeepsBytes, KeepsBytes};
ghost use Rattle.p9_inside.specs.Lookups.{ServerKeepsChild, KeepsChild, ServerKeepsChildAfter};
ghost use Rattle.p9_inside.specs.Lookups.{KeepsChildAfter, ServerKeepsChildren, KeepsChildren};
ghost use Rattle.p9_inside.specs.Lookups.{KeepsNext};

/// A number whose node is not inside has the same node, or none, when the insides are left out.
pub fn outer_keeps_node()
    ensures server { ServerKeepsNode }
    ensures forest { KeepsNode }
{}

/// Whether it is a directory stays as well.
pub fn outer_keeps_dir_test()
    ensures server { ServerKeepsDirTest }
    ensures forest { KeepsDirTest }
{}

/// So do its bytes.
pub fn outer_keeps_bytes()
    ensures server { ServerKeepsBytes }
    ensures forest { KeepsBytes }
{}

/// A directory that is neither hidden nor inside has the same child of each name.
pub fn outer_keeps_child()
    ensures server { ServerKeepsChild }
    ensures forest { KeepsChild }
{}

/// It has the same next child after each number.
pub fn outer_keeps_child_after()
    ensures server { ServerKeepsChildAfter }
    ensures forest { KeepsChildAfter }
{}

/// It has the same children, so it is empty in both or in neither.
pub fn outer_keeps_children()
    ensures server { ServerKeepsChildren }
    ensures forest { KeepsChildren }
{}

/// Each server's next number is the same.
pub fn outer_keeps_next()
    ensures { KeepsNext }
{}
