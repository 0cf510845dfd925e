//! Translators from specifications to automata.

ghost use Rattle.std.specs.Prelude.{IfOk, option_map};
ghost use Rattle.ps_tlsf.specs.SpecificationViews.{specification_data};
ghost use Rattle.ps_specification.specs.Translating.{MayGive};

use ps_tlsf::Specification;
use std::alloc::{AllocError, Global};

/// A translator promises nothing, for what it gives is judged.
pub trait Translator: Drop {
    /// What the translator may give for a specification.
    ghost may_give: { Self → MayGive };

    /// The HOA text of a deterministic parity automaton that should accept what satisfies the specification, or none.
    /// Its name is the title, with quotes. Fails if memory runs out.
    fn translate(
        &self,
        alloc: Global,
        specification: &Specification,
        title: Option<&[u8]>,
    ) -> Result<Option<Vec<u8>>, AllocError>
        ensures { IfOk result (λ given. may_give self.now (specification_data specification.now)
            (option_map (λ text. text.items) given)) };
}
