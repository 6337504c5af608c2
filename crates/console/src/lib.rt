// What the programs say of a circuit and of a refused netlist, and the steps that they share.
#![tactic(auto)]

mod messages;
mod steps;

pub use messages::{kind_line, refusal_line, sizes};
pub use steps::{
    CARD, bench, check, load, load_circuit, read_or_say, refuse, report, tour, unknown_command,
};

#[cfg(test)]
mod tests {
    use super::*;
    use circuit::{Circuit, Kind, Place, Refusal};
    use std::fs;
    use std::test::Fail;

    #[test]
    fn a_refusal_is_a_line(rt: HostRuntime) -> Result<(), Fail> {
        let refusal = Refusal::UnknownPin(Place { line: 2, column: 9 });
        let line = refusal_line(rt.alloc(), "a.bench", refusal)?;
        assert_eq!(rt;
            line.as_str(),
            "a.bench:2:9: refusal 4, unknown: the pin names no earlier line"
        );
        Ok(())
    }

    #[test]
    fn a_card_has_counts(rt: HostRuntime) -> Result<(), Fail> {
        let mut circuit = Circuit::new(rt.alloc())?;
        assert!(rt; read_or_say(&rt, "card", CARD.as_bytes(), &mut circuit).is_ok());
        let counts = sizes(rt.alloc(), &circuit)?;
        assert_eq!(rt; counts.as_str(), "lines 6\ninputs 3\noutputs 2\ndepth 2\n");
        let nands = kind_line(rt.alloc(), &circuit, Kind::Nand)?;
        assert_eq!(rt; nands.as_str(), "NAND 1\n");
        Ok(())
    }

    #[test]
    fn a_file_gives_its_circuit(rt: HostRuntime) -> Result<(), Fail> {
        let file = "console-card.bench";
        fs::write(&rt, file, CARD.as_bytes())?;
        let loaded = load_circuit(&rt, file)?;
        let checked = check(&rt, file)?;
        let timed = bench(&rt, file)?;
        fs::remove_file(&rt, file)?;
        let shown = tour(&rt, CARD)?;
        let reported = report(&rt, "card", CARD.as_bytes())?;
        for circuit in [loaded, checked, timed, shown, reported] {
            assert_eq!(rt; circuit.lines(), 6);
        }
        Ok(())
    }
}
