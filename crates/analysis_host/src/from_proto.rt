// What is read of the protocol's texts.
ghost use Rattle.std.specs.Prelude.{◌≡◌};
ghost use Rattle.analysis_host.specs.FromProto.{assist_kind};

/// Which assists a code action asks for.
#[derive(Clone, Copy, Debug, PartialEq, Eq, PartialOrd, Ord, Hash)]
pub enum AssistKind {
    Generate,
    QuickFix,
    Refactor,
    RefactorExtract,
    RefactorInline,
    RefactorRewrite,
}

/// The assists that a kind of code actions stands for (LSP 3.17, CodeActionKind).
pub fn assist_kind(kind: &str) -> Option<AssistKind>
    ensures { result ≡ assist_kind kind.now }
{
    match kind {
        "" => Some(AssistKind::Generate),
        "quickfix" => Some(AssistKind::QuickFix),
        "refactor" => Some(AssistKind::Refactor),
        "refactor.extract" => Some(AssistKind::RefactorExtract),
        "refactor.inline" => Some(AssistKind::RefactorInline),
        "refactor.rewrite" => Some(AssistKind::RefactorRewrite),
        _ => None,
    }
}
