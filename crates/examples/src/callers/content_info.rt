//! `[0] EXPLICIT ANY`, as in ContentInfo of CMS: a record of that one part, whose tag `[0]` is in
//! the place of that of SEQUENCE. It is read exactly, with no proof file.
ghost use Rattle.std.specs.Prelude.{◌≡◌, Ok, Some, IfOk, refl};
ghost use Rattle.examples.specs.ContentInfos.{content_info_content};
ghost use Rattle.sec1_der.specs.Elements.{element_of};

use der_types::{Any, Implicit};
use sec1_der::{Context0, Distinct, ObjectIdentifier, Record, Required, Result, read_der};

/// An element of any type.
#[derive(Drop)]
pub struct Content<'a> {
    /// The element.
    pub element: Any<'a>,
}

impl<'a> Record for Content<'a> {
    type Parts = Any<'a>;

    ghost parts = { λ content. content.element };

    ghost of_parts = { λ element. record { element = element } };

    fn from_parts(element: Self::Parts) -> Self {
        Content { element }
    }

    fn to_parts(&self) -> Self::Parts {
        self.element.reborrow()
    }

    ghost same = { λ _. refl };
}

impl Distinct for Content<'_> {
    ghost distinct = { refl };
}

/// A ContentInfo (RFC 5652 section 3), whose content isn't examined.
#[derive(Drop)]
pub struct ContentInfo<'a> {
    /// What the content is.
    pub content_type: ObjectIdentifier,
    /// The content.
    pub content: Implicit<Context0, Content<'a>>,
}

impl<'a> Record for ContentInfo<'a> {
    type Parts = (
        Required<ObjectIdentifier>,
        Required<Implicit<Context0, Content<'a>>>,
    );

    ghost parts = { λ info. (info.content_type, info.content) };

    ghost of_parts = { λ pairs. record { content_type = pairs.0; content = pairs.1 } };

    fn from_parts((content_type, content): Self::Parts) -> Self {
        ContentInfo {
            content_type: content_type.0,
            content: content.0,
        }
    }

    fn to_parts(&self) -> Self::Parts {
        (
            Required(self.content_type),
            Required(self.content.reborrow()),
        )
    }

    ghost same = { λ _. refl };
}

impl Distinct for ContentInfo<'_> {
    ghost distinct = { refl };
}

/// Reads a ContentInfo from its whole DER encoding.
///
/// # Errors
///
/// Those of [`read_der`].
pub fn read_content_info(bytes: &[u8]) -> Result<ContentInfo<'_>>
    ensures found { IfOk result
        (λ info. element_of 0x30 (content_info_content info) ≡ Some bytes.now) }
    ensures only { (info : ContentInfo)
        → element_of 0x30 (content_info_content info) ≡ Some bytes.now → result ≡ Ok info }
{
    read_der(bytes)
}
