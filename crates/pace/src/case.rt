// The case that is measured, as the first line says it.

#[derive(Clone, Copy)]
pub(crate) enum What {
    Link,
    Accept,
    Both,
}

#[derive(Clone, Copy)]
pub(crate) struct Case {
    pub(crate) what: What,
    length: usize,
    pub(crate) held: usize,
    pub(crate) rounds: usize,
}

// The first line, and what stands behind it.
fn split_line(text: &[u8]) -> (&[u8], &[u8]) {
    match text.iter().position(|&b| b == b'\n') {
        Some(end) => (&text[..end], &text[end + 1..]),
        None => (text, b""),
    }
}

impl Case {
    // The case, and what stands behind its line.
    pub(crate) fn read(text: &[u8]) -> (Case, &[u8]) {
        let (line, behind) = split_line(text);
        let mut case = Case {
            what: match line.first() {
                Some(b'l') => What::Link,
                Some(b'a') => What::Accept,
                _ => What::Both,
            },
            length: 0,
            held: 0,
            rounds: 0,
        };
        for &b in line {
            case.take(b);
        }
        (case, behind)
    }

    // A digit belongs to the number that is read, and a space moves the numbers one place on. None is so large that the remainder changes it.
    fn take(&mut self, b: u8) {
        match b {
            b' ' => {
                self.length = self.held;
                self.held = self.rounds;
                self.rounds = 0;
            }
            // Not `parse`: what is no digit is passed over.
            b'0'..=b'9' => self.rounds = self.rounds % 0x1000_0000 * 10 + usize::from(b - b'0'),
            _ => {}
        }
    }

    // The packet, as long as the line says if there is room.
    pub(crate) fn packet(self, room: &mut [u8]) -> &mut [u8] {
        let n = self.length.min(room.len());
        &mut room[..n]
    }
}
