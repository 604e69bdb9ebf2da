//! Short texts of a fixed size, each of which goes onto a page as one copy.

ghost use Rattle.std.specs.Prelude.{◌≤◌};
ghost use Rattle.noc_files.specs.declared.label.TheConstants.{LABEL};

/// The most bytes of a label.
pub(crate) const LABEL: usize = 32;

/// A label without bytes.
pub(crate) const EMPTY: Label = Label {
    bytes: [0; LABEL],
    length: 0,
};

/// A text of at most `LABEL` bytes. What lies behind it does not matter.
#[derive(Clone, Copy)]
pub(crate) struct Label {
    pub(crate) bytes: [u8; LABEL],
    pub(crate) length: usize,
    ghost short: { length ≤ LABEL },
}

impl Label {
    ghost use Rattle.std.specs.Prelude.{◌≡◌, ◌≤◌, length};
    ghost use Rattle.noc_files.specs.Labels.{label_text};

    /// The label of these bytes.
    pub(crate) fn of(text: &[u8]) -> Label
        requires { length text.now ≤ LABEL }
        ensures { label_text result ≡ text.now }
    {
        let mut bytes = [0; LABEL];
        bytes[..text.len()].copy_from_slice(text);
        Label {
            bytes,
            length: text.len(),
        }
    }
}
