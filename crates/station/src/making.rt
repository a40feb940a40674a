//! Which settings are lawful.

ghost use Rattle.std.specs.Prelude.{◌≡◌};
ghost use Rattle.station.specs.Answers.{class_count_of, IsLawfulOf};

use crate::{Lawful, Setting};
use account::Account;
use fault::{Cause, Fault, Layer};
use finisher::CLASSES;

impl Setting {
    /// The number of classes; refused unless it is from 1 to 8.
    pub fn class_count(&self) -> Result<usize, Fault>
        ensures { result ≡ class_count_of self.now.classes }
    {
        let classes = usize::from(self.classes);
        if classes < 1 || classes > CLASSES {
            Err(Cause::OutOfRange(u32::from(self.classes)).by(Layer::Station))
        } else {
            Ok(classes)
        }
    }
}

/// A setting as a station is made from it; refused where the classes are not 1 to 8, then where the grant is above
/// 1,000,000.
impl TryFrom<Setting> for Lawful {
    type Error = Fault;

    ghost try_from_gives = { IsLawfulOf };

    fn try_from(setting: Setting) -> Result<Self, Fault> {
        let classes = setting.class_count()?;
        let account = Account::new(setting.grant)?;
        Ok(Lawful {
            number: setting.number,
            classes,
            account,
        })
    }
}
