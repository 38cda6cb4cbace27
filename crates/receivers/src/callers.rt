//! What a caller learns from a receiver: functions over any receiver and over a keeper, and examples.

ghost use Rattle.std.specs.Prelude.{◌≡◌, [], ◌∷◌, length};
ghost use Rattle.receivers.specs.Rules.{held_after_all, with_places_given_back, Serves};
ghost use Rattle.receivers.specs.Keeping.{keeping};

#[cfg(test)]
pub mod tests {
    use crate::keeper::Keeper;
    use crate::receiver::Receiver;
    use crate::types::Tally;
    use crate::writer::TextWriter;

    // Offers two rows to any receiver.
    fn offer_two<R: Receiver>(r: &mut R, first: &[u16], second: &[u16])
        ensures held { R.held r.new ≡ held_after_all (R.rule r.old) (R.held r.old) (first.now ∷ second.now ∷ []) }
        ensures serves { Serves R.rule R.spare R.lender r.old r.new }
    {
        let _ = r.take(first);
        let _ = r.take(second);
    }

    // Offers two rows to a keeper over these places.
    fn keep_two(cells: &mut [u16], first: &[u16], second: &[u16])
        ensures { cells.new ≡ with_places_given_back cells.old (held_after_all (keeping (length cells.old)) [] (first.now ∷ second.now ∷ [])) }
    {
        let mut keeper = Keeper::new(cells);
        offer_two(&mut keeper, first, second);
    }

    #[test]
    fn seven_places_keep_one_row_of_three(rt: HostRuntime) {
        let mut cells = [9; 7];
        keep_two(&mut cells, &[3, 0, 1], &[3, 0, 2]);
        assert_eq!(rt; cells, [3, 3, 0, 1, 9, 9, 9]);
    }

    #[test]
    fn asking_alters_nothing(rt: HostRuntime) {
        let mut cells = [9; 4];
        let mut keeper = Keeper::new(&mut cells);
        assert!(rt; keeper.asks(&[3, 0, 1]));
        assert_eq!(rt; keeper.used(), 0);
        assert!(rt; keeper.take(&[3, 0, 1]));
        assert!(rt; !keeper.asks(&[]));
        assert_eq!(rt; keeper.used(), 4);
    }

    #[test]
    fn a_repeated_link_counts_once(rt: HostRuntime) {
        let mut tally = Tally::new();
        assert!(rt; tally.take(&[7, 3, 7]));
        assert!(rt; tally.take(&[7]));
        assert!(rt; !tally.take(&[1, 512]));
        assert_eq!(rt;
            (tally.rows(), tally.times(7), tally.times(3), tally.times(1)),
            (2, 2, 1, 0)
        );
    }

    #[test]
    fn lines_of_rows(rt: HostRuntime) {
        let mut places = [46; 9];
        let mut writer = TextWriter::new(&mut places);
        assert!(rt; writer.take(&[3, 0, 1]));
        assert!(rt; !writer.take(&[65535]));
        assert!(rt; writer.take(&[]));
        assert_eq!(rt; writer.used(), 8);
        drop(writer);
        assert_eq!(rt; &places, b"3 0 1\n-\n.");
    }

    #[test]
    fn rows_of_64_entries_are_not_taken(rt: HostRuntime) {
        let row = [0; 64];
        let mut cells = [0; 65];
        let mut places = [0; 128];
        assert!(rt; !Keeper::new(&mut cells).take(&row));
        assert!(rt; !TextWriter::new(&mut places).take(&row));
        let mut tally = Tally::new();
        assert!(rt; !tally.take(&row));
        assert!(rt; tally.take(&row[0..63]));
    }
}
