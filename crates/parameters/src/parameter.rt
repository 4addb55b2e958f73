//! The parameters of commands, with their names and kinds.

ghost use Rattle.std.specs.Prelude.{◌≡◌};
ghost use Rattle.parameters.specs.Table.{name_of, kind_of};

use crate::kind::Kind;

/// The parameters of commands: members of the body's object.
#[derive(Clone, Copy, Debug, PartialEq, Eq)]
pub enum Parameter {
    ScriptTimeout,
    PageLoadTimeout,
    ImplicitTimeout,
    Url,
    Handle,
    X,
    Y,
    Width,
    Height,
    Id,
    Using,
    Value,
    Text,
    Script,
    Args,
}

/// What the member is called.
pub fn name(parameter: Parameter) -> &'static str
    ensures { result.now ≡ name_of parameter }
{
    match parameter {
        Parameter::ScriptTimeout => "script",
        Parameter::PageLoadTimeout => "pageLoad",
        Parameter::ImplicitTimeout => "implicit",
        Parameter::Url => "url",
        Parameter::Handle => "handle",
        Parameter::X => "x",
        Parameter::Y => "y",
        Parameter::Width => "width",
        Parameter::Height => "height",
        Parameter::Id => "id",
        Parameter::Using => "using",
        Parameter::Value => "value",
        Parameter::Text => "text",
        Parameter::Script => "script",
        Parameter::Args => "args",
    }
}

/// Which values the member may have.
pub fn kind(parameter: Parameter) -> Kind
    ensures { result ≡ kind_of parameter }
{
    match parameter {
        Parameter::ScriptTimeout => Kind::Span,
        Parameter::PageLoadTimeout => Kind::Span,
        Parameter::ImplicitTimeout => Kind::Span,
        Parameter::Url => Kind::Address,
        Parameter::Handle => Kind::Text,
        Parameter::X => Kind::Place,
        Parameter::Y => Kind::Place,
        Parameter::Width => Kind::Size,
        Parameter::Height => Kind::Size,
        Parameter::Id => Kind::Frame,
        Parameter::Using => Kind::Using,
        Parameter::Value => Kind::Text,
        Parameter::Text => Kind::Text,
        Parameter::Script => Kind::Text,
        Parameter::Args => Kind::List,
    }
}
