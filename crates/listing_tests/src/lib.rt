// Tests of recording, listing and writing back, on known texts. They stand in a crate of their own, since a crate with tests is
// proved twice.
#![tactic(auto)]

#[cfg(test)]
mod texts;

#[cfg(test)]
mod tests {
    use crate::texts::{NO_FORMS, REFUSED, WHOLE};
    use relisting::{relist, summary};
    use std::alloc::Global;
    use std::process::Abort;
    use std::test::Fail;

    // The summary of a text, whose lines before its fault come out as they went in.
    fn outcome(rt: &impl Abort, heap: Global, text: &str) -> Result<String, Fail> {
        let relisted = relist(heap, text.as_bytes())?;
        assert!(rt;
            text.as_bytes().starts_with(relisted.text.as_slice()),
            "{}",
            text
        );
        Ok(summary(heap, relisted.outcome)?)
    }

    // Each text has the summary beside it.
    fn all_match(rt: &impl Abort, heap: Global, table: &[(&str, &str)]) -> Result<(), Fail> {
        for (text, expected) in table {
            let line = outcome(rt, heap, text)?;
            assert!(rt; line.as_str() == *expected, "{}", text);
        }
        Ok(())
    }

    #[test]
    fn each_text_that_is_no_line_has_its_column(rt: HostRuntime) -> Result<(), Fail> {
        all_match(&rt, rt.alloc(), &NO_FORMS)
    }

    #[test]
    fn each_refused_event_has_its_number(rt: HostRuntime) -> Result<(), Fail> {
        all_match(&rt, rt.alloc(), &REFUSED)
    }

    #[test]
    fn whole_texts_come_out_the_same(rt: HostRuntime) -> Result<(), Fail> {
        all_match(&rt, rt.alloc(), &WHOLE)
    }

    #[test]
    fn the_last_slot_is_used_and_no_more(rt: HostRuntime) -> Result<(), Fail> {
        let mut text = String::from_str(rt.alloc(), "b 1 PL-1\n")?;
        for _ in 0..4094u16 {
            text.push_str("r 1 1 0.0\n")?;
        }
        let full = relist(rt.alloc(), text.as_bytes())?;
        assert!(rt; full.text.as_slice() == text.as_bytes());
        assert!(rt; summary(rt.alloc(), full.outcome)?.as_str() == "recorded 4095\n");
        text.push_str("c 1\n")?;
        let over = relist(rt.alloc(), text.as_bytes())?;
        assert!(rt; over.text.as_slice() == full.text.as_slice());
        assert!(rt; summary(rt.alloc(), over.outcome)?.as_str() == "fault 9 tape 4096 1\n");
        Ok(())
    }
}
