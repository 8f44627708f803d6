//! What a survey refuses.
use media::{ROW, RowImage};
use std::test::Fail;
use survey::{Condition, ImageError, LONGEST, SECTORS, SurveyError, survey, survey_image};

#[test]
fn surveys_are_refused(rt: HostRuntime) -> Result<(), Fail> {
    let heap = rt.alloc();
    let mut memory = [0u8; 3 * ROW];
    let mut table = [Condition::Written; 2];
    let mut card = RowImage::new(&mut memory)?;
    assert_eq!(rt; survey(&mut card, &mut table), Err(SurveyError::ShortTable));
    assert_eq!(rt; table, [Condition::Written; 2]);
    let mut rows = [Condition::Torn; SECTORS];
    let part = vec![in heap; 0u8; 100]?;
    let long = vec![in heap; 0u8; LONGEST + ROW]?;
    assert_eq!(rt;
        survey_image(part, &mut rows),
        Err(ImageError::NotWholeRows)
    );
    assert_eq!(rt; survey_image(long, &mut rows), Err(ImageError::TooLong));
    assert_eq!(rt; survey_image(Vec::new(heap), &mut rows), Ok(0));
    Ok(())
}
