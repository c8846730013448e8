ghost use Rattle.core_profile.specs.LawfulText.{OneLawfulModule};

use core_texts::a_text_has_one_tree;

/// Bytes are the lawful text of at most one module.
pub fn a_lawful_text_has_one_module()
    ensures { OneLawfulModule }
{
    a_text_has_one_tree()
}
