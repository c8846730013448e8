//! The order of the forms of an assembly text, and the module that a text has. It reads
//! nothing yet: it holds what a reader's answers are to be.
//!
//! Behind `{module,m}.` stands `{exports,[..]}.`, and no other form. Behind `{labels,3}.` stands `{function,f,1,2}.`,
//! with `{line,[]}.` dropped before it, then `{label,1}.`, and so on. A text whose first form is `{labels,3}.` has its
//! fault there, so no characters stand before it; one whose func_info says another function has it at its end.
//!
//! `stage_behind` is one function from what is known of a module and a form to what is known then, and `FormsAgree` is
//! what no single form shows. `AssemblyText` says from these which module a text has, and `fault_at` is a function that finds
//! the first fault of a text: there is none exactly where there is a module (`faults_decide_texts`).
//!
//! The catch: a text that is no UTF-8 has its fault behind its longest front that is, whatever stands before.
#![tactic(auto)]

mod laws;

pub use laws::{
    faults_decide_texts, printed_forms_are_in_range, printed_forms_have_their_module,
    printed_lines_have_their_module, text_has_one_module_of_forms,
};
