//! psyn's own translator.

use ps_specification::Translator;
use ps_tlsf::Specification;
use ps_translation::titled;
use std::alloc::{AllocError, Global};

/// psyn's own translator.
#[derive(Drop)]
pub struct OwnTranslator;

impl Translator for OwnTranslator {
    ghost use Rattle.ps_specification.specs.Translating.{own_translator};

    ghost may_give = { λ translator. own_translator };

    fn translate(
        &self,
        alloc: Global,
        specification: &Specification,
        title: Option<&[u8]>,
    ) -> Result<Option<Vec<u8>>, AllocError> {
        titled(alloc, specification, title)
    }
}
