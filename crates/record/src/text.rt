//! Records as text: the kind by its name, then the fields in decimal.

use crate::kinds::{Kind, Record};
use std::fmt;

impl fmt::Display for Kind {
    fn fmt<W: fmt::Write>(&self, f: &mut fmt::Formatter<W>) -> fmt::Result {
        f.write_str(match self {
            Kind::SetUp => "set-up",
            Kind::Open => "open",
            Kind::Step => "step",
            Kind::Close => "close",
            Kind::Opened => "opened",
            Kind::Published => "published",
            Kind::Closed => "closed",
            Kind::Refused => "refused",
            Kind::End => "end",
        })
    }
}

impl fmt::Display for Record<'_> {
    fn fmt<W: fmt::Write>(&self, f: &mut fmt::Formatter<W>) -> fmt::Result {
        let kind = self.kind();
        write!(f, "{kind}")?;
        match self {
            Record::SetUp {
                station,
                classes,
                plan,
                grant,
            } => write!(
                f,
                ": station {station}, classes {classes}, plan {plan}, grant {grant}"
            ),
            Record::Open { horizon } => write!(f, ": horizon {horizon}"),
            Record::Step { row } => write!(f, ": counts{row}"),
            Record::Close => Ok(()),
            Record::Opened {
                serial,
                horizon,
                held,
            } => write!(f, ": serial {serial}, horizon {horizon}, units held {held}"),
            Record::Published {
                serial,
                step,
                tally,
            } => write!(f, ": serial {serial}, step {step}, counts{tally}"),
            Record::Closed {
                serial,
                steps,
                spent,
            } => write!(f, ": serial {serial}, steps {steps}, units spent {spent}"),
            Record::Refused {
                number,
                layer,
                place,
                event,
            } => write!(
                f,
                ": number {number}, layer {layer}, place {place}, event record {event}"
            ),
            Record::End { records } => write!(f, ": records {records}"),
        }
    }
}
