//! Places in a module text.
ghost use Rattle.std.specs.Prelude.{◌≡◌};
ghost use Rattle.nc_yang_words.specs.Places.{after, passed};

/// The place of a character: its line, and how many columns are before it on that line. A tab is
/// eight columns (RFC 7950 6.1.3), and every other character one. Either count stands still at its
/// type's end.
#[derive(Clone, Copy)]
pub(crate) struct Place {
    pub line: u32,
    pub column: usize,
}

impl Place {
    /// The place after a character that stands here.
    pub(crate) fn after(self, sign: char) -> Place
        ensures { result ≡ after self sign }
    {
        match sign {
            '\n' => Place {
                line: self.line.saturating_add(1),
                column: 0,
            },
            '\t' => Place {
                line: self.line,
                column: self.column.saturating_add(8),
            },
            _ => Place {
                line: self.line,
                column: self.column.saturating_add(1),
            },
        }
    }

    /// The place after the characters that stand from here on.
    pub(crate) fn passed(self, signs: &[char]) -> Place
        ensures { result ≡ passed self signs.now }
    {
        let mut place = self;
        for sign in signs {
            place = place.after(*sign);
        }
        place
    }
}
