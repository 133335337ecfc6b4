// The annotated stores of images, counted by the sites of their code.
ghost use Rattle.rc_marks.specs.Counted.{StoresAreSites, ImagesHaveAsMany};

/// The annotated stores of an image with marks are the sites of its region code, function after
/// function, each with its line, its annotation and the mark of its point (`sites`). So where the marks
/// are the checks that may go, the image has for each line, annotation and bit as many annotated stores
/// as the code has sites with that line and annotation whose check may go just where the bit says so
/// (`many`).
pub fn an_image_has_as_many_stores_as_the_code_has_sites()
    ensures sites { StoresAreSites }
    ensures many { ImagesHaveAsMany }
{}
